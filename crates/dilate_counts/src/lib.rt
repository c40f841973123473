//! How many lattice points of a dilate have a base of a degree, for each of many sets of vectors on which the base is 0.
//!
//! It stands on `point_scan`, which visits the points of a dilate, on `base_counts`, which tells the vectors that pair to 0 with a point and its base,
//! and on `face_closing` for the table of these sets of vectors: points that have the same one are counted together. The points of a dilate are
//! kept, so that one that is counted again isn't walked through again.
//!
//! Its central theorem: the counts are, for each set and degree, exactly the number of the dilate's lattice points whose base has the degree and pairs
//! to 0 with the vectors of the set (`count_dilate`).
#![tactic(auto)]

mod classes;
mod counter;
mod dilate;
mod keeper;
mod limits;
mod room;

pub use dilate::count_dilate;
pub use limits::MOST_COUNTED;
pub use room::DilateRoom;

#[cfg(test)]
mod tests;
