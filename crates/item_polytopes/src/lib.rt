//! The polytope of an item, with its dual where it is reflexive, or its refusal. It stands on `item_points` for the points of items and on
//! `dual_pair` for their polytopes and the duals.
//!
//! Its central theorem: an item has exactly one polytope, which is reflexive with exactly one dual or isn't, or exactly one refusal; and where
//! memory isn't wanting that one is answered (`kind_of_item`).
#![tactic(auto)]

mod items;
mod laws;
#[cfg(test)]
mod tests;

pub use items::{kind_of_item, kind_of_systems, polytope_of_item, polytope_of_systems};
pub use laws::{item_kinds_are_single, item_polytopes_are_single, weight_lines_have_few_points};
