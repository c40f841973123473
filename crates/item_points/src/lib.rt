//! The points of an item: a weight line or a matrix is turned into points in order, or refused by the first limit that it exceeds, up to the
//! size of the points. It stands on `palp_input` for items, on `weight_points` and `weight_frame` for the points of weight lines, on
//! `lattice_core` for points and refusals, on the orders of `lattice_theory`, and on the kit's `arrayvec`.
//! Its central theorem: an item has exactly one list of points or exactly one refusal, and where memory isn't wanting that one is answered.
#![tactic(auto)]

mod examples;
mod items;
mod laws;
mod matrices;
mod sizes;
#[cfg(test)]
mod tests;
mod weights;

pub use examples::{matrix_points_are_an_example, numbers_refusal_is_an_example};
pub use items::{points_of_item, points_of_matrix, points_of_systems};
pub use laws::{item_points_are_single, weight_points_are_lattice_points};
