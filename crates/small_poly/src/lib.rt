//! Polynomials of bounded degree with exact integer coefficients.
//!
//! A polynomial is told by the list of its coefficients, and each call by what it makes of them. The crate stands on `lattice_theory` (integers
//! and lists) and `polynomial_theory` (products, and polynomials that are put in at v/u and uv).
//!
//! Its central theorem: `Poly1::mul` has exactly the coefficients of the product, and `Poly2::add_term` adds exactly those of a product of two
//! polynomials that are put in at v/u and uv.
#![tactic(auto)]

mod factors;
mod laws;
mod lists;
mod one;
mod terms;
#[cfg(test)]
mod tests;
mod two;

pub use laws::{sums_are_small, terms_fit};
pub use one::Poly1;
pub use two::Poly2;
