//! Nef partitions of the facets' normals of a reflexive polytope: the definitions, and what a search through them may rest on. It stands on
//! `facet_theory` for the lattice points, and on `walk_theory` for walks, and computes nothing.
//!
//! Its central theorem: a list of part numbers is a nef partition exactly where for each vertex and part a lattice point agrees with it
//! (`nef_by_agreement`); and a walk through restricted growth lists that gives up only beginnings with which no point agrees lists all
//! nef partitions (`nef_walk`).
#![tactic(auto)]

mod examples;
pub mod partitions;

pub use examples::{segment_parts_are_an_example, surface_parts_are_an_example};
