//! The program's engine: the command words and a text go in, the report goes out, and an outcome says how it ended. It stands on
//! `palp_words` and `palp_input` for words and texts, on `report_theory` for what a report is, on `item_points` and `item_polytopes` for the
//! points and polytopes of items, on `hull`, `point_scan` and `dual_pair` for facets, vertices, lattice points and duals, on `incidence`,
//! `face_poset` and `batyrev` for faces and numbers, on `nef_report` for nef partitions with `nef_numbers` for the room of their cones, on
//! `weight_lists` for weight systems, on `palp_print` for what is printed, on `palp_io` for bytes in and out, and on `lattice_core` for points
//! and refusals.
//! Its central theorem is the contract of `run`: what is written is exactly the report that the lattice definitions fix, and what isn't
//! reported is refused by name.
#![tactic(auto)]

mod blocks;
mod command;
mod faces;
mod laws;
mod lists;
mod outcome;
mod parts;
mod pieces;
mod polytopes;
mod session;
#[cfg(test)]
mod tests;

pub use command::run;
pub use laws::{answers_are_single, dual_leads_back, ones_tell_reflexive};
pub use outcome::Outcome;
pub use session::{ItemFault, Session, report_item};
