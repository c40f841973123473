//! The theory of facets and vertices of finitely many integer points that aren't flat, in every dimension.
//!
//! The laws speak of the points alone, by the definitions of `lattice_theory`: which functions are sums of facets, where the hull and
//! its dilates are, which points are vertices and what these have in common with all points, and that facets are told by few points and are
//! finitely many. The crate stands on `lattice_theory` (the definitions) and
//! `elimination` (kernels of integer vectors), and computes nothing.
//!
//! Its central theorem: each affine function that is nonnegative on the points is, up to a positive multiple, a sum of facets
//! (`facets_generate`).
#![tactic(auto)]

pub mod dilates;
mod examples;
pub mod facets;
pub mod hulls;
pub mod vertex;

pub use examples::corner_is_an_example;
