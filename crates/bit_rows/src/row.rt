//! Sets of numbers below 128.
ghost use Rattle.std.specs.Prelude.{◌≡◌, ◌⊎◌, ◌↔◌, ℕ, ◌<◌, IsTrue};
ghost use Rattle.bit_rows.specs.Rows.{HasIndex, IsPartOf};
ghost use Rattle.bit_rows.specs.declared.row.TheConstants.{MOST_INDICES};

use std::marker::Model;

/// How many numbers a row can hold: those below 128.
pub const MOST_INDICES: usize = 128;

/// A set of numbers below 128. Contracts see the number whose bits tell which are in the set. This project's own.
#[derive(Clone, Copy, Debug, PartialEq, Eq)]
pub struct BitRow {
    bits: u128,
}

impl Model for BitRow {
    ghost use Rattle.std.specs.Prelude.{ℕ};

    ghost Value = { ℕ };

    ghost view = { λ row. row.bits };

    ghost inverse = { λ bits. record { bits = bits } };
}

impl BitRow {
    /// The set without numbers.
    pub fn empty() -> BitRow
        ensures { (index : ℕ) → HasIndex result index → ⊥ }
    {
        BitRow { bits: 0 }
    }

    /// Puts a number below 128 into the set.
    #[inline]
    pub fn add(&mut self, index: usize)
        requires { index < MOST_INDICES }
        ensures { (other : ℕ) → HasIndex self.new other ↔ (HasIndex self.old other ⊎ (other ≡ index)) }
    {
        self.bits |= 1 << index;
    }

    /// Whether a number below 128 is in the set.
    #[inline]
    pub fn has(self, index: usize) -> bool
        requires { index < MOST_INDICES }
        ensures { IsTrue result ↔ HasIndex self index }
    {
        (self.bits >> index) & 1 == 1
    }

    /// The numbers that are in both sets.
    #[inline]
    pub fn meet(self, other: BitRow) -> BitRow
        ensures { (index : ℕ) → HasIndex result index ↔ (HasIndex self index × HasIndex other index) }
    {
        BitRow {
            bits: self.bits & other.bits,
        }
    }

    /// Whether each number of the set is in the other one.
    #[inline]
    pub fn is_part_of(self, other: BitRow) -> bool
        ensures { IsTrue result ↔ IsPartOf self other }
    {
        self.bits & other.bits == self.bits
    }
}

#[cfg(test)]
mod tests {
    use super::*;

    #[test]
    fn holds_the_numbers_that_were_added(rt: HostRuntime) {
        let mut row = BitRow::empty();
        row.add(0);
        row.add(127);
        for (index, want) in [(0, true), (1, false), (126, false), (127, true)] {
            assert_eq!(rt; row.has(index), want);
        }
    }

    #[test]
    fn meets_and_compares_sets(rt: HostRuntime) {
        let mut low = BitRow::empty();
        low.add(3);
        low.add(64);
        let mut high = BitRow::empty();
        high.add(64);
        high.add(100);
        let both = low.meet(high);
        assert!(rt; both.has(64) && !both.has(3) && !both.has(100));
        assert!(rt; both.is_part_of(low) && both.is_part_of(high));
        assert!(rt; !low.is_part_of(high));
        assert!(rt; BitRow::empty().is_part_of(both));
    }
}
