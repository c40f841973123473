//! Tests.
mod triangle;

use crate::{EPoly, h_star_of};
use small_poly::Poly2;
use std::rt::HostRuntime;

#[test]
fn h_star_of_a_simplex_with_edges_of_length_5(rt: HostRuntime) {
    let star = h_star_of(&[1, 126, 1001, 3876, 10626], 5);
    assert!(rt; star.coefficient(0) == 1 && star.coefficient(1) == 121);
    assert!(rt; star.coefficient(2) == 381 && star.coefficient(3) == 121);
    assert!(rt; star.coefficient(4) == 1 && star.coefficient(5) == 0);
}

#[test]
fn numbers_of_no_terms(rt: HostRuntime) {
    let numbers = EPoly::of(Poly2::zero(), 6, 1);
    assert!(rt; numbers.e(0, 6) == 0 && numbers.hodge_of(3, 4) == 0);
    assert!(rt; numbers.euler() == 0);
    assert!(rt; numbers.diamond().len() == 49 && numbers.first_numbers().len() == 5);
}
