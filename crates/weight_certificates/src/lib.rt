//! Exact checks of the two kinds of certificates that show whether points are around the origin, for points of 1 to 6 coordinates: a linear
//! function that isn't 0 and is nonnegative on them, and as many of them as coordinates with an inverse and a sum of positive multiples that is 0.
//! Whoever finds such numbers, and how, doesn't matter.
//!
//! The crate stands on `lattice_core` for points and pairings, and on the definitions of `interior_point_theory`. Its central theorem: the checks
//! answer true exactly for certificates, and where points have one it is known whether they are around the origin.
#![tactic(auto)]

mod columns;
mod laws;
mod refuters;
mod surroundings;

pub use laws::surroundings_surround;
pub use refuters::is_refuter;
pub use surroundings::{Corner, MOST_COUNT, MOST_SIZE, is_surrounding};

#[cfg(test)]
mod tests;
