//! Cayley cones of nef partitions: the vectors that span them, those that bound them, and how many integer vectors of a degree their faces have. It
//! stands on `nef_theory` for nef partitions and on `face_theory` for faces, and computes nothing.
//!
//! Its central theorem: the functions of a nef partition's cone are nonnegative on its members (`pairings_are_nonnegative`), and a rank of its faces is
//! at most the dimension and the number of parts, together (`cone_rank_bound`). How many integer vectors of a degree a face has is told by points alone
//! (`counts_by_bases`).
#![tactic(auto)]

pub mod cones;
mod examples;

pub use examples::{segment_bases_are_an_example, segment_cone_is_an_example};
