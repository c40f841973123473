//! Cayley cones of nef partitions, and the limits on their size.
//!
//! It stands on `dual_pair` for reflexive polytopes with their duals and nef partitions, on `point_scan` for counts in dilates, on `incidence` for
//! the rows that tell which vectors are orthogonal, and on the definitions and laws of `cayley_theory`.
//!
//! Its central theorem: the cone of a nef partition has exactly the members and the functions of the definition, each once, in order, and its
//! incidence tells exactly which of them pair to 0 (`Cone::of`, `Cone::incidence`); and a number of parts is refused exactly by the first limit
//! that it exceeds, on itself, on the cone's dimension, and on the lattice points of a large dilate of the polytope and of its dual
//! (`scan_limits`). How many vectors of a degree the faces of a cone have is told by the points of such dilates (`faces_are_counted`,
//! `dual_faces_are_counted`).
#![tactic(auto)]

mod cone;
mod laws;
mod limits;
mod scans;
mod tight;
mod vectors;

pub use cone::Cone;
pub use laws::{
    cone_top_rank_bound, dual_faces_are_counted, faces_are_counted, found_are_partitions,
    parts_have_vectors,
};
pub use limits::{MOST_RANK, MOST_SCANNED};
pub use scans::{rank_limits, scan_limits};

#[cfg(test)]
mod tests;
