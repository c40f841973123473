//! The exponent vectors of weight systems, one after another in lexicographic order, and how many there are.
//!
//! The walk goes through beginnings of vectors, and on from a beginning only where each system's further weights can take exactly what is
//! left of its degree, which tables tell.
//!
//! The crate stands on `lattice_core` for weight systems, and on the orders of `lattice_theory`. Its central theorem: the calls of
//! `Monomials::next_into` give exactly the exponent vectors, all of them, each once and in order.
#![tactic(auto)]

mod laws;
mod monomials;
mod rows;
mod search;
mod waits;

pub use laws::{exponents_are_small, given_vectors_are_all};
pub use monomials::{MOST_COUNT, Monomials, count_to};
pub use waits::{NEVER, waits_of};
