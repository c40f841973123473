//! Polytopes of points: their vertices, facets and lattice points in order, and whether they are reflexive; and reflexive polytopes with their
//! duals, the tables of their faces, and how many points are in the interior of each face and of each dual face. It stands on `hull` and
//! `point_scan` for these lists, on the laws of `facet_theory` for the vertices' own, and on those of `duality_theory` for the duals', which need
//! no second hull; on `face_poset` for the faces, and on the laws of `batyrev_theory` for the counts.
//!
//! Its central theorem: points have exactly one polytope, which is that of its vertices, or are refused by the first limit that they exceed
//! (`Polytope::of`); and a polytope is reflexive with exactly one dual, or not, or is refused by a limit on the dual (`DualPair::of`).
#![tactic(auto)]

mod faces;
mod interiors;
mod laws;
mod pair;
mod partition;
mod polytope;
mod side;

pub use faces::FacesFault;
pub use laws::{
    dual_refusals_are_single, exchanged_pairs, no_limit_on_the_way_back, pairs_are_single,
    polytope_of_vertices, polytope_refusals_are_single, polytopes_are_single,
};
pub use pair::{DualPair, Kind};
pub use partition::Partition;
pub use polytope::Polytope;
pub use side::Side;

#[cfg(test)]
mod tests;
