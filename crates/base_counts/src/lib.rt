//! Counts of points by their bases: the base of a point is the list of the least heights with which it is in a cone whose vectors have parts.
//!
//! It stands on `lattice_core` for pairings, on `incidence` for words that are filled bit by bit, on `bit_pool` for rows of words, and on the definitions
//! of `cayley_theory`.
//!
//! Its central theorem: the heights that are found are the base of the definition (`base_into`, `tops_are_bases`), words tell exactly the vectors that
//! pair to 0 with the point and its base (`tight_at`), and with them the sets on which all do (`sets_within_tight`), for which a point is counted
//! (`add_point`).
#![tactic(auto)]

mod base;
mod counts;
mod laws;
mod visit;

pub use base::{LOWEST, base_into, degree_of, part_of, tight_into};
pub use counts::{DEGREES, add_point};
pub use laws::{sets_within_tight, tops_are_bases};
pub use visit::tight_at;

#[cfg(test)]
mod tests;
