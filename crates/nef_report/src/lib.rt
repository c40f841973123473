//! What `nef` says of an item: that its polytope isn't reflexive, or its nef partitions, one after another, with their stringy numbers or without. It
//! stands on `item_polytopes` and `dual_pair` for the item's polytope and its dual, on `cayley` for the limits on the number of parts, on `nef_parts`
//! for the partitions, on `nef_numbers` and `stringy` for their numbers, on `report_theory` for what a report is, on `palp_words` for what is asked, on
//! `palp_print` for lines and on `palp_io` for sinks.
//!
//! Its central theorem: what is given to the sink is exactly what is said of the item, each nef partition of the definition once, in order, with its
//! number and the numbers that are asked, up to the item's first refusal; or a front of it where the sink failed or memory was wanting
//! (`list_partitions`).
#![tactic(auto)]

mod fault;
mod laws;
mod lines;
mod listing;
mod pieces;
#[cfg(test)]
mod tests;

pub use fault::NefFault;
pub use laws::listings_are_single;
pub use listing::{MOST_PARTITIONS, list_partitions};
