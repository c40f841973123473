//! A hull that grows: corners that aren't flat, their facets, and what becomes of these with one more point. It stands on the laws of
//! `facet_theory` and `ridge_theory` for what the facets are, on `normal_bounds` for how large they are, on `lattice_core` for numbers and points,
//! and on `bit_rows` for sets of places.
//!
//! Its central theorem: after `Growth::grow` the facets are exactly those of the corners and the point.
#![tactic(auto)]

mod beyond;
mod growth;
mod ridges;
mod rows;
mod steps;
mod values;

pub use beyond::{Beyond, first_beyond};
pub use growth::Growth;

#[cfg(test)]
mod tests;
