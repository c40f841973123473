//! Nef partitions of a reflexive polytope's dual: for each vertex the lattice points that may be the points of parts there, as rows of bits, and a
//! search through the lists of part numbers. It stands on `nef_theory` for what partitions are and what a search through them may rest on, and on
//! `dual_pair` for the polytopes.
//!
//! Its central theorem: a search gives exactly the nef partitions, all of them, each once and in lexicographic order, and ends behind the
//! last one (`NefSearch::next`).
#![tactic(auto)]

mod agreeing;
mod beginnings;
mod laws;
mod masks;
mod pairings;
mod partitions;
mod search;

pub use beginnings::MOST_PARTS;
pub use laws::{first_partitions_law, partitions_are_single};
pub use masks::Masks;
pub use partitions::NefSearch;
