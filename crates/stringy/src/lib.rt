//! h*, S~ and the stringy numbers of the faces of a cone.
//!
//! It stands on `face_poset` for tables of faces, on `poset_g` for the polynomials G and G' of their intervals, on `small_poly` for polynomials, and
//! on the definitions and laws of `stringy_theory` and `polynomial_theory`. Numbers of lattice points are told by a trait, `FaceNumbers`.
//!
//! Its central theorem: the numerator, which is made as a sum over the faces of a product of two polynomials each, is the sum over triples of
//! faces of the definition (`e_poly`), and the numbers that are told are exactly its e(p,q), h(p,q) and Euler number (`EPoly`).
#![tactic(auto)]

mod cone;
mod counts;
mod lists;
mod numbers;
mod numerator;
mod rows;
mod stars;
#[cfg(test)]
mod tests;
mod tilde;

pub use cone::{e_poly, h_star, s_tilde};
pub use counts::FaceNumbers;
pub use lists::MOST_NUMBERS;
pub use numbers::EPoly;
pub use stars::h_star_of;
