//! The numbers that a numerator tells.
ghost use Rattle.std.specs.Prelude.{◌≡◌, ℕ, ◌+◌, ◌*◌, ◌^◌, ◌≤◌, pos, ◌*ℤ◌, nat_abs};
ghost use Rattle.polynomial_theory.specs.Sums.{sign};
ghost use Rattle.stringy.specs.Numbers.{AreSmallNumbers, number_at, hodge_at, line_sum, euler_of};

use small_poly::Poly2;
use std::marker::Model;

/// The stringy numbers of a cone: e(p,q) is the coefficient of u^(p+r) v^(q+r) in their numerator, for p and q from 0 to the dimension of the
/// variety, where r is the codimension. Contracts see this dimension, the codimension and the coefficients of the numerator. Source:
/// alg-geom/9509009.
#[derive(Drop)]
pub struct EPoly {
    dim: u32,
    codim: u32,
    numerator: Poly2,
}

impl Model for EPoly {
    ghost use Rattle.stringy.specs.Numbers.{EState, AreSmallNumbers};

    ghost Value = { EState };

    ghost view = { λ e. record { dim = e.dim; codim = e.codim; numerator = e.numerator } };

    ghost invariant = { λ e. AreSmallNumbers (record { dim = e.dim; codim = e.codim; numerator = e.numerator }) };
}

/// A number with a sign by the sum of its places.
fn signed(places: u32, number: i128) -> i128
    requires { nat_abs number ≤ 2 ^ 120 }
    ensures { result ≡ sign places *ℤ number }
{
    if places % 2 == 0 { number } else { -number }
}

impl EPoly {
    /// The numbers that a numerator tells.
    pub(crate) fn of(numerator: Poly2, dim: u32, codim: u32) -> EPoly
        requires { AreSmallNumbers (record { dim = dim; codim = codim; numerator = numerator }) }
        ensures dim { result.dim ≡ dim }
        ensures codim { result.codim ≡ codim }
        ensures numerator { result.numerator ≡ numerator }
    {
        EPoly {
            dim,
            codim,
            numerator,
        }
    }

    /// The largest p and q, at most 6.
    pub fn dim(&self) -> u32
        ensures value { result ≡ self.now.dim }
        ensures few { result ≤ 6 }
    {
        self.dim
    }

    /// e(p,q), where p and q are at most the dimension, which is at most 6.
    pub fn e(&self, p: u32, q: u32) -> i128
        requires p { p ≤ self.now.dim }
        requires q { q ≤ self.now.dim }
        ensures value { result ≡ number_at self.now p q }
        ensures small { nat_abs result ≤ 2 ^ 120 }
        ensures few { self.now.dim ≤ 6 }
    {
        self.numerator
            .coefficient((p + self.codim) as usize, (q + self.codim) as usize)
    }

    /// h(p,q), which is e(p,q), or its negative where p + q is odd. Both are at most the dimension.
    pub fn hodge_of(&self, p: u32, q: u32) -> i128
        requires p { p ≤ self.now.dim }
        requires q { q ≤ self.now.dim }
        ensures { result ≡ hodge_at self.now p q }
    {
        let number = self.e(p, q);
        signed(p + q, number)
    }

    /// The sum of e(p,q) over q.
    fn line(&self, p: u32) -> i128
        requires p { p ≤ self.now.dim }
        ensures value { result ≡ line_sum self.now p }
        ensures small { nat_abs result ≤ 2 ^ 120 * 7 }
    {
        let mut sum = 0_i128;
        for q in 0..self.dim + 1 {
            sum += self.e(p, q);
        }
        sum
    }

    /// The Euler number: the sum of all e(p,q).
    pub fn euler(&self) -> i128
        ensures { result ≡ euler_of self.now }
    {
        let mut sum = 0_i128;
        for p in 0..self.dim + 1 {
            sum += self.line(p);
        }
        sum
    }
}
