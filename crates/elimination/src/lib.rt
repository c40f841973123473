//! Elimination over the integers, without fractions: for a list of integer vectors of any length m, the vectors that pair to 0 with all of them.
//!
//! A kernel is a list of independent vectors, each with a place of its own, of which every vector that pairs to 0 with the list is, up to a
//! positive multiple, an integer combination. The laws say how a kernel starts, what it becomes with one more vector, and what the number of its
//! members tells. The crate stands on `lattice_theory` (vectors and the pairing), and computes nothing.
//!
//! Its central theorem: where all vectors that pair to 0 with a list are multiples of one that isn't 0, m - 1 vectors of the list have the same
//! ones (`few_determine`).
#![tactic(auto)]

mod examples;
pub mod kernel;
pub mod kernel_size;
pub mod places;

pub use examples::kernel_is_an_example;
