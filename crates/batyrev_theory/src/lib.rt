//! Batyrev's numbers of a reflexive polytope and its dual: points in the interior of faces, sums over faces, and the Hodge numbers of dimension 3 to
//! 5 that are made of them.
//!
//! A polytope is told by its vertices and facets, a face is a set of vertices, and the laws hold of any such lists. The crate stands on
//! `lattice_theory` (the definitions), `face_theory` (faces with their ranks and dual faces) and `duality_theory` (the points of the dual), and
//! computes nothing.
//!
//! Its central theorem: any table of all faces, with the lists of the points of both sides, gives the numbers (`divisors_by_table`,
//! `deformations_by_table`, `products_by_table`), and they are single.
#![tactic(auto)]

mod examples;
pub mod interiors;
pub mod numbers;
pub mod tables;

pub use examples::{octahedron_numbers_are_an_example, tetrahedron_numbers_are_an_example};
