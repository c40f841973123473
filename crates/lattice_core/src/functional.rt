//! Affine functions with integer coefficients.
ghost use Rattle.std.specs.Prelude.{◌≡◌, ◌⊎◌, ◌*◌, ◌^◌, ◌≤◌, ◌↔◌, length, neg_ℤ, nat_abs, IsSome, IfSome, IsTrue, ⊤};
ghost use Rattle.lattice_theory.specs.Vector.{dot};
ghost use Rattle.lattice_theory.specs.Affine.{Affine, value};
ghost use Rattle.lattice_theory.specs.Order.{FunctionLess};
ghost use Rattle.lattice_theory.specs.Size.{absolute_sum};
ghost use Rattle.lattice_core.specs.Compare.{Compares};
ghost use Rattle.lattice_core.specs.ValueWidths.{FitsWidth, IsNarrowAt};
ghost use Rattle.lattice_core.specs.declared.limits.TheConstants.{MOST_COORDINATES};

use crate::entries::held;
use crate::pairing::{narrow_pair, narrow_pair_of};
use crate::{MOST_COORDINATES, Point, Width, pair};
use arrayvec::ArrayVec;
use std::alloc::AllocError;
use std::cmp::Ordering;
use std::marker::Model;

/// An affine function: a normal of 1 to 6 integers of 64 bits, and a constant of 128 bits. Contracts see the record of the two.
#[derive(Debug, Drop, PartialEq, Eq, PartialOrd, Ord)]
pub struct Functional {
    normal: ArrayVec<i64, MOST_COORDINATES>,
    constant: i128,
}

impl Model for Functional {
    ghost use Rattle.lattice_core.specs.declared.limits.TheConstants.{MOST_COORDINATES};
    ghost use Rattle.std.specs.Prelude.{◌≤◌, length};
    ghost use Rattle.lattice_theory.specs.Affine.{Affine};

    ghost Value = { Affine };

    ghost view = { λ f. record { normal = f.normal.items; constant = f.constant } };

    ghost invariant = { λ f. (1 ≤ length f.normal.items) × (length f.normal.items ≤ MOST_COORDINATES) };

    ghost inverse = { λ f. record { normal = record { items = f.normal }; constant = f.constant } };
}

impl Clone for Functional {
    ghost is_clone = { λ f g. g ≡ f };

    ghost is_infallible = { λ _. ⊤ };

    fn clone(&self) -> Result<Functional, AllocError> {
        Ok(self.copied())
    }
}

impl Functional {
    /// The function with this normal and this constant. It is `None` exactly where the normal has no entry or more than 6.
    pub fn new(normal: &[i64], constant: i128) -> Option<Functional>
        ensures variant { IsSome result ↔ ((1 ≤ length normal.now) × (length normal.now ≤ MOST_COORDINATES)) }
        ensures parts { IfSome result (λ f. (f.normal ≡ normal.now) × (f.constant ≡ constant)) }
    {
        if normal.is_empty() || normal.len() > MOST_COORDINATES {
            return None;
        }
        Some(Functional {
            normal: held(normal),
            constant,
        })
    }

    /// The function with this normal, of 1 to 6 entries, that vanishes at the point with these coordinates, as many. The absolute values of the
    /// normal's entries, or those of the coordinates, sum to at most 2^60. The constant is at most 2^63 times the coordinates' sum.
    pub fn through(normal: &[i64], coordinates: &[i64]) -> Functional
        requires least { 1 ≤ length coordinates.now }
        requires most { length coordinates.now ≤ MOST_COORDINATES }
        requires dimension { length normal.now ≡ length coordinates.now }
        requires small { (absolute_sum normal.now ≤ 2 ^ 60) ⊎ (absolute_sum coordinates.now ≤ 2 ^ 60) }
        ensures normal { result.normal ≡ normal.now }
        ensures constant { result.constant ≡ neg_ℤ (dot normal.now coordinates.now) }
        ensures bound { nat_abs result.constant ≤ 2 ^ 63 * absolute_sum coordinates.now }
    {
        let pairing = pair(normal, coordinates);
        match Functional::new(normal, -pairing) {
            Some(function) => function,
            None => unreachable!(),
        }
    }

    /// The normal's entries, in order.
    #[inline]
    pub fn normal(&self) -> &[i64]
        ensures value { result.now ≡ self.now.normal }
        ensures least { 1 ≤ length result.now }
        ensures most { length result.now ≤ MOST_COORDINATES }
    {
        self.normal.as_slice()
    }

    /// The constant.
    #[inline]
    pub fn constant(&self) -> i128
        ensures { result ≡ self.now.constant }
    {
        self.constant
    }

    /// The number of the normal's entries, 1 to 6.
    #[inline]
    pub fn dim(&self) -> usize
        ensures value { result ≡ length self.now.normal }
        ensures least { 1 ≤ result }
        ensures most { result ≤ MOST_COORDINATES }
    {
        self.normal.len()
    }

    /// The function's value at a point of the same dimension, for a constant of absolute value at most 2^100 and a point whose entries' absolute
    /// values sum to at most 2^33. So it is at most 2^96 + 2^100 in absolute value.
    #[inline]
    pub fn at(&self, p: &Point) -> i128
        requires dimension { length self.now.normal ≡ length p.now }
        requires small { absolute_sum p.now ≤ 2 ^ 33 }
        requires constant { nat_abs self.now.constant ≤ 2 ^ 100 }
        ensures { result ≡ value self.now p.now }
    {
        pair(self.normal(), p.entries()) + self.constant
    }

    /// The function's value at a point of the same dimension, worked out in a width that both fit: `width_of` tells one for functions and points of
    /// a size.
    #[inline]
    pub fn value_at(&self, p: &Point, width: Width) -> i128
        requires dimension { length self.now.normal ≡ length p.now }
        requires fits { FitsWidth width self.now p.now }
        ensures { result ≡ value self.now p.now }
    {
        match width {
            Width::Narrow => i128::from(self.narrow_at(p)),
            Width::Wide => self.at(p),
        }
    }

    /// The same in 64 bits, for a function and a point that are so small.
    #[inline]
    pub fn narrow_at(&self, p: &Point) -> i64
        requires dimension { length self.now.normal ≡ length p.now }
        requires fits { IsNarrowAt self.now p.now }
        ensures { result ≡ value self.now p.now }
    {
        narrow_pair(self.normal(), p.entries()) + self.constant as i64
    }

    /// The same where both have so many coordinates. Where the number is written out, a loop over points doesn't ask for it at each of them.
    #[inline]
    pub fn narrow_at_in(&self, p: &Point, count: usize) -> i64
        requires function { length self.now.normal ≡ count }
        requires point { length p.now ≡ count }
        requires fits { IsNarrowAt self.now p.now }
        ensures { result ≡ value self.now p.now }
    {
        narrow_pair_of(self.normal(), p.entries(), count) + self.constant as i64
    }

    /// The same function again. It takes no memory.
    pub fn copied(&self) -> Functional
        ensures { result ≡ self.now }
    {
        Functional {
            normal: held(self.normal.as_slice()),
            constant: self.constant,
        }
    }

    /// How this function stands to another of the same dimension: by normal in lexicographic order, then by constant.
    pub fn cmp_order(&self, other: &Functional) -> Ordering
        requires { length self.now.normal ≡ length other.now.normal }
        ensures cases { Compares FunctionLess self.now other.now result }
        ensures less { FunctionLess self.now other.now → result ≡ Ordering.Less }
        ensures equal { self.now ≡ other.now → result ≡ Ordering.Equal }
        ensures greater { FunctionLess other.now self.now → result ≡ Ordering.Greater }
    {
        self.cmp(other)
    }

    /// Whether the two are the same function.
    pub fn is_same(&self, other: &Functional) -> bool
        ensures { IsTrue result ↔ (self.now ≡ other.now) }
    {
        self == other
    }
}

#[cfg(test)]
mod tests {
    use super::*;

    #[test]
    fn answers_its_values(rt: HostRuntime) {
        let f = Functional::new(&[-3, -4], 5).expect(&rt, "two entries");
        assert_eq!(rt; f.dim(), 2);
        assert_eq!(rt; f.normal(), [-3, -4].as_slice());
        assert_eq!(rt; f.constant(), 5);
        assert!(rt; f.is_same(&f.copied()));
        assert!(rt; Functional::new(&[], 5).is_none());
        for (x, want) in [([3, -1], 0), ([-1, -1], 12), ([0, 0], 5)] {
            let p = Point::new(&x).expect(&rt, "two entries");
            assert_eq!(rt; f.at(&p), want);
        }
    }

    #[test]
    fn answers_a_value_in_each_width(rt: HostRuntime) {
        let f = Functional::new(&[-3, -4], 5).expect(&rt, "two entries");
        let p = Point::new(&[-1, -1]).expect(&rt, "two entries");
        assert_eq!(rt; f.value_at(&p, Width::Narrow), 12);
        assert_eq!(rt; f.value_at(&p, Width::Wide), 12);
        assert_eq!(rt; f.narrow_at_in(&p, 2), 12);
    }

    #[test]
    fn compares_by_normal_and_then_constant(rt: HostRuntime) {
        for (constant, want) in [
            (4, Ordering::Greater),
            (5, Ordering::Equal),
            (6, Ordering::Less),
        ] {
            let f = Functional::new(&[1, 0], 5).expect(&rt, "two entries");
            let g = Functional::new(&[1, 0], constant).expect(&rt, "two entries");
            assert_eq!(rt; f.cmp_order(&g), want);
        }
    }
}
