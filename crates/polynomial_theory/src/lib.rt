//! Polynomials in one variable, and sums of powers of two variables of which one may have negative powers, told by their coefficients.
//!
//! A polynomial in t is put in at v/u or at uv, and multiplies a sum of powers of u and v. The laws say that such factors may be exchanged, that
//! a product acts as its factors do, and how low and how high powers become. The crate stands on `lattice_theory` (integers and lists) and
//! computes nothing.
//!
//! Its central theorem: each coefficient of A(v/u) B(uv) c u^r is c times one product of a coefficient of A and one of B, or 0
//! (`coefficient_is_one_product`).
#![tactic(auto)]

mod examples;
pub mod powers;
pub mod products;

pub use examples::products_are_an_example;
