//! How large the normals of hyperplanes through lattice points are, in every dimension, and the numbers that elimination meets on its way.
//!
//! The bounds come by counting: among the vectors with entries from 0 to T^k two have the same pairings with k given vectors of absolute sum T, and
//! their difference pairs to 0 with all of these. So a function that is fixed by n points, or a member of a kernel, is no larger than such a
//! difference. The crate stands on `lattice_theory` (vectors, affine functions, sizes) and `elimination` (kernels), and computes nothing.
//!
//! Its central theorem: a function that is fixed by n points of size S has normal entries of at most (2S)^(n-1) (`normal_bound`).
#![tactic(auto)]

pub mod absolute_sums;
pub mod bounds;
mod examples;
pub mod fits;
pub mod limits;

pub use examples::{safe_sizes_are_an_example, two_points_are_an_example};
