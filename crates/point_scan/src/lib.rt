//! The lattice points of the hull of vertices, and of its dilates, found by a walk through the region that the facets and the box of the
//! vertices bound.
//!
//! The crate stands on `lattice_core` for numbers and points, on `region_walk` for the walk, on `bit_rows` and the laws of `facet_theory` for the
//! bounds of the first coordinates, and on `normal_bounds` for the size of facets.
//! Its central theorem: `scan` gives exactly the lattice points, each once and in order, and `count_to` counts exactly those of a dilate.
#![tactic(auto)]

mod bounds;
mod corners;
mod dilates;
mod eliminations;
mod limits;
mod points;
mod projections;
mod runs;
mod spans;
mod visits;

pub use limits::{MOST_COUNT, MOST_DILATE};
pub use points::{count_to, scan};
pub use visits::{Visitor, for_each_dilate};
