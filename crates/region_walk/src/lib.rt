//! A walk through the integer points of a region: of those in a box at which affine functions are nonnegative. A point is extended by one
//! coordinate at a time, between the bounds that the functions which end there give, so its last coordinates come in runs.
//!
//! The crate stands on `lattice_core` for points and functions. Its central theorem: the walk goes from each run to the next one, in
//! lexicographic order, and the runs are exactly the points of the region.
#![tactic(auto)]

mod beginning;
mod region;
mod spans;
mod walk;

pub use region::Region;
pub use walk::RegionWalk;
