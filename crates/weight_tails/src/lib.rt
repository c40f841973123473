//! The tails of a weight system: the points of its exponent vectors without their first coordinate, by which it is told whether the system has an
//! interior point.
//!
//! The crate stands on `weight_points` for what exponents take, on `lattice_core` for points, and on the definitions of `interior_point_theory`. Its
//! central theorem: the list has exactly the tails of the system. Both it and the test that spares most lists go by the levels of the weights, which
//! a search carries along: how many of the first weights are needed to take a number.
#![tactic(auto)]

mod laws;
mod levels;
mod tails;

pub use laws::tails_are_small;
pub use levels::{add_weight, are_taken_twice, levels_of_none};
pub use tails::tails_of;

#[cfg(test)]
mod tests;
