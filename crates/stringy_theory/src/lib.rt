//! The stringy numbers of a cone over a Cayley polytope: a sum over triples of faces of h*-polynomials and of polynomials G of intervals, and its
//! groupings.
//!
//! What goes in is any finite list of faces with an order along which ranks rise, and numbers of lattice points on both sides. The laws say that
//! the polynomials G are told by their equations, how h* is made of the numbers and how large it is, which powers occur, and how the sum may be
//! grouped. The crate stands on `lattice_theory` (integers and lists), `face_theory` (faces and their ranks) and `polynomial_theory` (series in t
//! and in u and v), and computes nothing.
//!
//! Its central theorem: the sum over triples of faces is the sum over single faces of a product of two polynomials (`numerator_by_faces`).
#![tactic(auto)]

pub mod counts;
mod examples;
pub mod groupings;
pub mod intervals;
pub mod powers;
pub mod ranks;

pub use examples::{
    octahedron_is_an_example, quintic_is_an_example, segment_is_an_example,
    tetrahedron_is_an_example, triangle_is_an_example,
};
