//! Interior-point weight systems: the definitions, and what a search through them may rest on. It stands on `facet_theory`, on `walk_theory` for
//! walks, and on `lattice_core` for weight systems and their exponent vectors, and computes nothing.
//!
//! Its central theorem: (1, .., 1) is in the interior of the exponent vectors exactly where the points of these, without their first
//! coordinate, are around the origin (`interior_by_tails`); and a walk that tries all weights that may follow, keeps the systems, and gives up
//! beginnings of none, lists all systems of a degree (`weight_walk`).
#![tactic(auto)]

pub mod certificates;
pub mod cuts;
mod examples;
pub mod interior;
pub mod walks;

pub use examples::{
    beginnings_are_an_example, certificates_are_an_example, systems_are_an_example,
    two_weights_are_an_example,
};
