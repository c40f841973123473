//! Sums of powers of two variables.
ghost use Rattle.std.specs.Prelude.{◌≡◌, ℕ, ◌^◌, ◌<◌, ◌≤◌, ℤ, pos, negsuc, ◌+ℤ◌, ◌*ℤ◌, nat_abs};
ghost use Rattle.lattice_theory.specs.Vector.{entry};
ghost use Rattle.polynomial_theory.specs.Series.{HasNoPowerBelow, HasNoPowerAbove, times_at_product};
ghost use Rattle.small_poly.specs.Sizes.{HasSmallTerms};
ghost use Rattle.small_poly.specs.Tables.{laurent_of, unit_of, term, times_both};

use crate::factors::add_products;
use crate::lists::add_each;
use crate::one::Poly1;
use crate::terms::add_terms;
use std::marker::Model;

/// The powers of u and of v are below this.
const SIDE: usize = 17;

/// A sum of integer multiples of u^i v^j for i and j up to 16. Contracts see the list of its 289 coefficients, that of u^i v^j at place 17 i + j.
#[derive(Drop)]
pub struct Poly2 {
    coefficients: [i128; 289],
}

impl Model for Poly2 {
    ghost use Rattle.std.specs.Prelude.{List, ℤ};

    ghost Value = { List ℤ };

    ghost view = { λ p. p.coefficients };
}

/// So many coefficients, all 0.
fn zeros() -> [i128; 289]
    ensures { (k : ℕ) → entry result k ≡ pos 0 }
{
    [0; 289]
}

impl Poly2 {
    /// The sum 0.
    pub fn zero() -> Poly2
        ensures { (p : ℤ) (q : ℕ) → laurent_of result p q ≡ pos 0 }
    {
        Poly2 {
            coefficients: zeros(),
        }
    }

    /// The coefficient of u^i v^j; 0 for larger powers.
    pub fn coefficient(&self, i: usize, j: usize) -> i128
        ensures { result ≡ laurent_of self.now (pos i) j }
    {
        if i < SIDE && j < SIDE {
            self.coefficients[SIDE * i + j]
        } else {
            0
        }
    }

    /// Adds a sum. The coefficients are below 2^126 in size.
    pub fn add(&mut self, other: &Poly2)
        requires { (i j : ℕ) → nat_abs (laurent_of self.old (pos i) j +ℤ laurent_of other.now (pos i) j) < 2 ^ 126 }
        ensures { (p : ℤ) (q : ℕ) → laurent_of self.new p q ≡ laurent_of self.old p q +ℤ laurent_of other.now p q }
    {
        add_each(&mut self.coefficients, &other.coefficients);
    }

    /// Adds u^power left(v/u) right(uv), or subtracts it. It has no negative powers and none above 16, and products and sums of coefficients are
    /// at most 2^126 in size, and below it.
    pub fn add_term(&mut self, negative: bool, power: usize, left: &Poly1, right: &Poly1)
        requires power { power ≤ 16 }
        requires low { HasNoPowerBelow (pos 0) (term (unit_of negative) power (entry left.now) (entry right.now)) }
        requires high { HasNoPowerAbove 16 16 (term (unit_of negative) power (entry left.now) (entry right.now)) }
        requires products { (a b : ℕ) → nat_abs (entry left.now a *ℤ entry right.now b) ≤ 2 ^ 126 }
        requires small { (i j : ℕ) → nat_abs (laurent_of self.old (pos i) j +ℤ term (unit_of negative) power (entry left.now) (entry right.now) (pos i) j) < 2 ^ 126 }
        ensures { (p : ℤ) (q : ℕ) → laurent_of self.new p q ≡ laurent_of self.old p q +ℤ term (unit_of negative) power (entry left.now) (entry right.now) p q }
    {
        add_terms(
            &mut self.coefficients,
            negative,
            power,
            left.coefficients(),
            right.coefficients(),
        );
    }

    /// Adds left(v/u) right(uv) inner, or subtracts it. It has no negative powers and none above 16; the sizes of the products that make one
    /// coefficient of right(uv) inner, or of the whole, sum to at most 2^126, and the coefficients are below it.
    pub fn add_product(&mut self, negative: bool, left: &Poly1, right: &Poly1, inner: &Poly2)
        requires low { HasNoPowerBelow (pos 0) (times_both (entry left.now) (entry right.now) (laurent_of inner.now)) }
        requires high { HasNoPowerAbove 16 16 (times_both (entry left.now) (entry right.now) (laurent_of inner.now)) }
        requires first { HasSmallTerms (pos 1) (entry right.now) (laurent_of inner.now) }
        requires second { HasSmallTerms (negsuc 0) (entry left.now) (times_at_product (entry right.now) (laurent_of inner.now)) }
        requires small { (i j : ℕ) → nat_abs (laurent_of self.old (pos i) j +ℤ unit_of negative *ℤ times_both (entry left.now) (entry right.now)
            (laurent_of inner.now) (pos i) j) < 2 ^ 126 }
        ensures { (p : ℤ) (q : ℕ) → laurent_of self.new p q ≡ laurent_of self.old p q +ℤ unit_of negative *ℤ times_both (entry left.now)
            (entry right.now) (laurent_of inner.now) p q }
    {
        add_products(
            &mut self.coefficients,
            negative,
            left.coefficients(),
            right.coefficients(),
            &inner.coefficients,
        );
    }
}
