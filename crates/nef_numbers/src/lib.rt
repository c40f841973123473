//! The stringy numbers of nef partitions.
//!
//! It stands on `cayley` for the cone of a partition, on `face_poset` for the cone's faces, on `cone_counts` for how many integer vectors they have,
//! on `poset_g` for the polynomials G and G' of their intervals, and on `stringy` for the numbers that all these make.
//!
//! Its central theorem: a nef partition within the limits has exactly the numbers of the definition, and one that isn't is refused by the first
//! limit that it exceeds (`numbers_of`).
#![tactic(auto)]

mod laws;
mod limits;
mod numbers;
mod rooms;

pub use laws::{found_have_parts, numbers_are_single};
pub use limits::{FEW, MOST_FUNCTIONS, MOST_RAYS};
pub use numbers::numbers_of;
pub use rooms::ConeRooms;

#[cfg(test)]
mod tests;
