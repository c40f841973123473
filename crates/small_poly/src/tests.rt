//! Tests.
ghost use Rattle.std.specs.Prelude.{ℕ, ◌≤◌, nat_abs};
ghost use Rattle.lattice_theory.specs.Vector.{entry};
ghost use Rattle.polynomial_theory.specs.Series.{HasDegreeAtMost};

use crate::{Poly1, Poly2};
use std::rt::HostRuntime;

/// 1 + 2t.
fn first() -> Poly1
    ensures size { (k : ℕ) → nat_abs (entry result k) ≤ 3 }
    ensures degree { HasDegreeAtMost 1 (entry result) }
{
    let mut p = Poly1::zero();
    p.set(0, 1);
    p.set(1, 2);
    p
}

/// 3 - t.
fn second() -> Poly1
    ensures size { (k : ℕ) → nat_abs (entry result k) ≤ 3 }
    ensures degree { HasDegreeAtMost 1 (entry result) }
{
    let mut p = Poly1::zero();
    p.set(0, 3);
    p.set(1, -1);
    p
}

#[test]
fn coefficients_are_kept(rt: HostRuntime) {
    let p = second();
    assert!(rt; p.coefficient(0) == 3 && p.coefficient(1) == -1);
    assert!(rt; p.coefficient(2) == 0 && p.coefficient(9) == 0);
}

#[test]
fn a_part_below_a_degree(rt: HostRuntime) {
    let mut p = second();
    p.truncate(1);
    assert!(rt; p.coefficient(0) == 3 && p.coefficient(1) == 0);
}

#[test]
fn a_sum(rt: HostRuntime) {
    let mut p = first();
    p.add(&second());
    assert!(rt; p.coefficient(0) == 4 && p.coefficient(1) == 1);
}

#[test]
fn a_difference(rt: HostRuntime) {
    let mut p = first();
    p.sub(&second());
    assert!(rt; p.coefficient(0) == -2 && p.coefficient(1) == 3);
}

#[test]
fn a_product(rt: HostRuntime) {
    let p = first().mul(&second());
    assert!(rt; p.coefficient(0) == 3 && p.coefficient(1) == 5);
    assert!(rt; p.coefficient(2) == -2 && p.coefficient(3) == 0);
}

#[test]
fn nothing_is_added(rt: HostRuntime) {
    let mut p = Poly2::zero();
    p.add(&Poly2::zero());
    assert!(rt; p.coefficient(0, 0) == 0 && p.coefficient(17, 0) == 0);
}

#[test]
fn a_term(rt: HostRuntime) {
    let mut p = Poly2::zero();
    p.add_term(true, 1, &first(), &second());
    assert!(rt; p.coefficient(1, 0) == -3 && p.coefficient(0, 1) == -6);
    assert!(rt; p.coefficient(2, 1) == 1 && p.coefficient(1, 2) == 2);
}

#[test]
fn a_product_with_nothing(rt: HostRuntime) {
    let mut p = Poly2::zero();
    p.add_product(true, &first(), &second(), &Poly2::zero());
    assert!(rt; p.coefficient(0, 0) == 0 && p.coefficient(1, 1) == 0);
}
