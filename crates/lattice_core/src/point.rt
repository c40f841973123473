//! Points.
ghost use Rattle.std.specs.Prelude.{◌≡◌, ◌<◌, ◌≤◌, ◌↔◌, length, IsSome, IfSome, IsTrue, ⊤};
ghost use Rattle.lattice_theory.specs.Vector.{entry};
ghost use Rattle.lattice_theory.specs.Order.{LexLess};
ghost use Rattle.lattice_core.specs.Compare.{Compares};
ghost use Rattle.lattice_core.specs.declared.limits.TheConstants.{MOST_COORDINATES};

use crate::MOST_COORDINATES;
use crate::entries::held;
use arrayvec::ArrayVec;
use std::alloc::AllocError;
use std::cmp::Ordering;
use std::marker::Model;

/// A point of the lattice: 1 to 6 integers of 64 bits. Contracts see the list of its entries.
#[derive(Debug, Drop, PartialEq, Eq, PartialOrd, Ord)]
pub struct Point {
    entries: ArrayVec<i64, MOST_COORDINATES>,
}

impl Model for Point {
    ghost use Rattle.lattice_core.specs.declared.limits.TheConstants.{MOST_COORDINATES};
    ghost use Rattle.std.specs.Prelude.{List, ℤ, ◌≤◌, length};

    ghost Value = { List ℤ };

    ghost view = { λ p. p.entries.items };

    ghost invariant = { λ p. (1 ≤ length p.entries.items) × (length p.entries.items ≤ MOST_COORDINATES) };

    ghost inverse = { λ xs. record { entries = record { items = xs } } };
}

impl Clone for Point {
    ghost is_clone = { λ p q. q ≡ p };

    ghost is_infallible = { λ _. ⊤ };

    fn clone(&self) -> Result<Point, AllocError> {
        Ok(self.copied())
    }
}

impl Point {
    /// The point with these entries. It is `None` exactly where there is no entry or more than 6.
    pub fn new(entries: &[i64]) -> Option<Point>
        ensures variant { IsSome result ↔ ((1 ≤ length entries.now) × (length entries.now ≤ MOST_COORDINATES)) }
        ensures entries { IfSome result (λ p. p ≡ entries.now) }
    {
        if entries.is_empty() || entries.len() > MOST_COORDINATES {
            return None;
        }
        Some(Point {
            entries: held(entries),
        })
    }

    /// The number of entries, 1 to 6.
    #[inline]
    pub fn dim(&self) -> usize
        ensures value { result ≡ length self.now }
        ensures least { 1 ≤ result }
        ensures most { result ≤ MOST_COORDINATES }
    {
        self.entries.len()
    }

    /// All entries, in order.
    #[inline]
    pub fn entries(&self) -> &[i64]
        ensures value { result.now ≡ self.now }
        ensures least { 1 ≤ length result.now }
        ensures most { length result.now ≤ MOST_COORDINATES }
    {
        self.entries.as_slice()
    }

    /// The entry at the place `i`, counted from 0.
    #[inline]
    pub fn entry(&self, i: usize) -> i64
        requires { i < length self.now }
        ensures { result ≡ entry self.now i }
    {
        self.entries.as_slice()[i]
    }

    /// The same point again. It takes no memory.
    pub fn copied(&self) -> Point
        ensures { result ≡ self.now }
    {
        Point {
            entries: held(self.entries.as_slice()),
        }
    }

    /// How this point stands to another of the same dimension in lexicographic order.
    pub fn cmp_lex(&self, other: &Point) -> Ordering
        requires { length self.now ≡ length other.now }
        ensures cases { Compares LexLess self.now other.now result }
        ensures less { LexLess self.now other.now → result ≡ Ordering.Less }
        ensures equal { self.now ≡ other.now → result ≡ Ordering.Equal }
        ensures greater { LexLess other.now self.now → result ≡ Ordering.Greater }
    {
        self.cmp(other)
    }

    /// Whether the two are the same point.
    pub fn is_same(&self, other: &Point) -> bool
        ensures { IsTrue result ↔ (self.now ≡ other.now) }
    {
        self == other
    }
}

#[cfg(test)]
mod tests {
    use super::*;

    #[test]
    fn holds_its_entries(rt: HostRuntime) {
        let p = Point::new(&[3, -1]).expect(&rt, "two entries");
        assert_eq!(rt; p.dim(), 2);
        assert_eq!(rt; p.entry(1), -1);
        assert_eq!(rt; p.entries(), [3, -1].as_slice());
        assert!(rt; p.is_same(&p.copied()));
        assert!(rt; Point::new(&[]).is_none());
        assert!(rt; Point::new(&[0; 7]).is_none());
    }

    #[test]
    fn compares_lexicographically(rt: HostRuntime) {
        let p = Point::new(&[2, 3]).expect(&rt, "two entries");
        for (first, second, want) in [
            (3, -9, Ordering::Less),
            (2, 3, Ordering::Equal),
            (2, -4, Ordering::Greater),
        ] {
            let q = Point::new(&[first, second]).expect(&rt, "two entries");
            assert_eq!(rt; p.cmp_lex(&q), want);
        }
    }
}
