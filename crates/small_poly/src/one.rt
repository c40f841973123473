//! Polynomials in one variable.
ghost use Rattle.std.specs.Prelude.{◌≡◌, ℕ, nat_lt, cond, ◌==◌, ◌^◌, ◌<◌, pos, ◌+ℤ◌, ◌-ℤ◌, nat_abs};
ghost use Rattle.lattice_theory.specs.Vector.{entry};
ghost use Rattle.polynomial_theory.specs.Series.{HasDegreeAtMost, product};
ghost use Rattle.small_poly.specs.Sizes.{HasSmallSums};

use crate::lists::{add_each, clear_from, product_coefficient, subtract_each};
use std::marker::Model;

/// How many coefficients a polynomial has.
const COUNT: usize = 9;

/// A polynomial in t of degree at most 8. Contracts see the list of its coefficients, that of t^k at place k, in which a missing one is 0.
#[derive(Clone, Copy, Drop)]
pub struct Poly1 {
    coefficients: [i128; 9],
}

impl Model for Poly1 {
    ghost use Rattle.std.specs.Prelude.{List, ℤ};

    ghost Value = { List ℤ };

    ghost view = { λ p. p.coefficients };

    ghost inverse = { λ xs. record { coefficients = xs } };
}

impl Poly1 {
    /// The polynomial 0.
    pub fn zero() -> Poly1
        ensures { (k : ℕ) → entry result k ≡ pos 0 }
    {
        Poly1 {
            coefficients: [0; 9],
        }
    }

    /// The coefficient of t^i; 0 above the degree.
    pub fn coefficient(&self, i: usize) -> i128
        ensures { result ≡ entry self.now i }
    {
        if i < COUNT { self.coefficients[i] } else { 0 }
    }

    /// All coefficients.
    pub(crate) fn coefficients(&self) -> &[i128]
        ensures { result.now ≡ self.now }
    {
        &self.coefficients
    }

    /// Changes the coefficient of t^i.
    pub fn set(&mut self, i: usize, value: i128)
        requires { i < 9 }
        ensures { (k : ℕ) → entry self.new k ≡ cond (k == i) value (entry self.old k) }
    {
        self.coefficients[i] = value;
    }

    /// Adds a polynomial. The sums are below 2^126 in size.
    pub fn add(&mut self, other: &Poly1)
        requires { (k : ℕ) → nat_abs (entry self.old k +ℤ entry other.now k) < 2 ^ 126 }
        ensures { (k : ℕ) → entry self.new k ≡ entry self.old k +ℤ entry other.now k }
    {
        add_each(&mut self.coefficients, &other.coefficients);
    }

    /// Subtracts a polynomial. The differences are below 2^126 in size.
    pub fn sub(&mut self, other: &Poly1)
        requires { (k : ℕ) → nat_abs (entry self.old k -ℤ entry other.now k) < 2 ^ 126 }
        ensures { (k : ℕ) → entry self.new k ≡ entry self.old k -ℤ entry other.now k }
    {
        subtract_each(&mut self.coefficients, &other.coefficients);
    }

    /// The product with a polynomial, which has no degree above 8. The sizes of the products that make one coefficient sum to at most 2^126.
    pub fn mul(&self, other: &Poly1) -> Poly1
        requires degree { HasDegreeAtMost 8 (product (entry self.now) (entry other.now)) }
        requires small { HasSmallSums (entry self.now) (entry other.now) }
        ensures { (k : ℕ) → entry result k ≡ product (entry self.now) (entry other.now) k }
    {
        let mut coefficients = [0; 9];
        for k in 0..COUNT {
            coefficients[k] = product_coefficient(&self.coefficients, &other.coefficients, k);
        }
        Poly1 { coefficients }
    }

    /// Keeps the coefficients of the powers below t^degree.
    pub fn truncate(&mut self, degree: usize)
        ensures { (k : ℕ) → entry self.new k ≡ cond (nat_lt k degree) (entry self.old k) (pos 0) }
    {
        clear_from(&mut self.coefficients, degree);
    }
}
