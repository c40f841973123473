//! The theory of one more point: what becomes of the facets of points that aren't flat when a point is added, in every dimension.
//!
//! The laws speak of the points alone, by the definitions of `lattice_theory`: which facets stay, which two facets combine to a new one, that
//! there are no others, and that none is found twice. The crate stands on `lattice_theory` (the definitions) and
//! `facet_theory` (the theorem on facets), and computes nothing.
//!
//! Its central theorem: the facets with a new point are those that aren't negative at it, and for each two that meet in a ridge, one positive and
//! one negative at it, their combination that vanishes at it (`facets_of_one_more`).
#![tactic(auto)]

mod examples;
pub mod facets;
pub mod ridges;

pub use examples::sides_are_an_example;
