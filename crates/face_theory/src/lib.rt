//! The theory of faces: sets of members that are closed under a relation "tight" between finitely many members and functions, their ranks,
//! coranks and dual faces.
//!
//! A polytope gives such a relation: its vertices are the members, its facets the functions, and tight means the value 0; so does a cone, by
//! pairings. The laws say that the faces are what rows of functions have in common, how a table of them grows row by row, how ranks are found
//! face by face, and how large they are. The crate stands on `lattice_theory` (vectors, affine functions) and `elimination` (vectors that
//! are told from each other), and computes nothing.
//!
//! Its central theorem: where pairings with vectors of length n tell the relation, no chain of faces strictly within a face is longer than n
//! (`chain_bound`).
#![tactic(auto)]

pub mod bounds;
pub mod duals;
mod examples;
pub mod faces;
pub mod ranks;

pub use examples::{
    octahedron_faces_are_an_example, square_faces_are_an_example, uneven_chains_are_an_example,
};
