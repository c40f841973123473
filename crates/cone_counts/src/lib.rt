//! How many integer vectors of each degree the faces of a nef partition's cone have, and their dual faces.
//!
//! It stands on `cayley` for cones, on `face_poset` for the tables of their faces, and on `dilate_counts` for the lattice points of a dilate, counted by
//! the degree of their base. It tells its numbers by the trait of `stringy`.
//!
//! Its central theorem: the numbers are exactly those of the vectors of the definition, on each face and on each dual face, for every degree below the
//! dimension of the cone, or a cone is refused exactly where it has more of one degree than the limit, or its dual does (`FaceCounts::of`).
#![tactic(auto)]

mod counts;
mod free;
mod limits;
mod rooms;
mod sets;
mod sides;
mod sums;

pub use counts::FaceCounts;
pub use limits::MOST_PAIRS;
pub use rooms::SideRooms;

#[cfg(test)]
mod tests;
