//! The reports of ranges of weight systems: the list of interior-point systems, or of those whose polytope is reflexive, and the summary of
//! their polytopes. It stands on `weight_enum` for the systems, on `item_polytopes` and `dual_pair` for their polytopes, on `report_theory` for
//! what a report is, on `palp_print` for lines and on `palp_io` for sinks.
//!
//! Its central theorem: what is given to the sink is exactly the report of the whole list of the range, up to the first system that is refused,
//! or a front of it where the sink failed or memory was wanting (`list_systems`, `sum_up`). A range has exactly one list, which has fewer than
//! 2^61 systems.
#![tactic(auto)]

mod fault;
mod laws;
mod listing;
mod printing;
mod sums;
mod systems;
#[cfg(test)]
mod tests;

pub use fault::ListFault;
pub use laws::{lists_are_single, ranges_are_listed};
pub use listing::list_systems;
pub use sums::sum_up;
