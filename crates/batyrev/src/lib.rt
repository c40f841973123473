//! Batyrev's numbers of a reflexive polytope and its dual. It stands on `dual_pair` for both sides and for the points in the interior of faces, on
//! `face_poset` for the table of faces, and on the laws of `batyrev_theory`, in which the numbers are defined.
//!
//! Its central theorem: the numbers that are told are those of the polytope, exactly in dimension 3, 4 and 5 (`hodge`); and on a pair with its sides
//! exchanged h11 and h21 are exchanged in dimension 4, h11 and h31 in dimension 5 (`exchanged_lines`).
#![tactic(auto)]

mod coranks;
mod laws;
mod line;
mod sums;

pub use laws::{divisors_are_deformations_of_the_dual, exchanged_lines};
pub use line::{HodgeLine, hodge};

#[cfg(test)]
mod tests;
