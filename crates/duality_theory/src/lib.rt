//! Reflexive polytopes and their duals: points whose facets all have the constant 1, and the normals of these facets.
//!
//! The laws speak of points that aren't flat, in every dimension, and say what the normals are: their facets, vertices and lattice points, and the
//! lists of these in order, so that nobody has to look for them a second time. The crate stands on `lattice_theory` (the definitions)
//! and `facet_theory` (the theorem on facets), and computes nothing.
//!
//! Its central theorem: the facets of the normals are exactly the functions (v, 1) of the vertices v (`facets_of_dual`).
#![tactic(auto)]

pub mod duals;
mod examples;
pub mod lists;
pub mod normals;

pub use examples::{equal_constants_are_an_example, triangle_duals_are_an_example};
