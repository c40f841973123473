//! Sums of multiples of two vectors, as far as their entries are within the limit.
ghost use Rattle.std.specs.Prelude.{◌≡◌, ℕ, ◌^◌, ◌<◌, ◌≤◌, List, length, ℤ, nat_abs, ◌+ℤ◌, ◌*ℤ◌, MatchResult};
ghost use Rattle.std.specs.List.{All};
ghost use Rattle.lattice_core.specs.declared.limits.TheConstants.{MOST_WEIGHTS, MOST_FRAME_ENTRY};
ghost use Rattle.weight_frame.specs.Frame.{IsSumOfMultiples, largest};
ghost use Rattle.weight_frame.specs.steps.Sums.{IsSmallSum, IsLargeSum};

use crate::vector::FrameVector;
use arrayvec::ArrayVec;
use lattice_core::{MOST_FRAME_ENTRY, MOST_WEIGHTS, narrowed_entry};

/// The product of a multiplier and an entry.
pub(crate) fn product(p: i128, a: i64) -> i128
    requires multiplier { nat_abs p ≤ 2 ^ 55 }
    requires entry { nat_abs a ≤ MOST_FRAME_ENTRY }
    ensures value { result ≡ p *ℤ a }
    ensures bound { nat_abs result ≤ 2 ^ 95 }
{
    p * i128::from(a)
}

fn entry_sum(p: i128, a: i64, q: i128, b: i64) -> i128
    requires first { nat_abs p ≤ 2 ^ 55 }
    requires second { nat_abs q ≤ 2 ^ 55 }
    requires left { nat_abs a ≤ MOST_FRAME_ENTRY }
    requires right { nat_abs b ≤ MOST_FRAME_ENTRY }
    ensures value { result ≡ p *ℤ a +ℤ q *ℤ b }
    ensures bound { nat_abs result ≤ 2 ^ 96 }
{
    product(p, a) + product(q, b)
}

/// The entries of `p x + q y`.
fn sum_entries(p: i128, x: &[i64], q: i128, y: &[i64]) -> ArrayVec<i128, MOST_WEIGHTS>
    requires same { length x.now ≡ length y.now }
    requires most { length x.now ≤ MOST_WEIGHTS }
    requires first { nat_abs p ≤ 2 ^ 55 }
    requires second { nat_abs q ≤ 2 ^ 55 }
    requires left { largest x.now ≤ MOST_FRAME_ENTRY }
    requires right { largest y.now ≤ MOST_FRAME_ENTRY }
    ensures sum { IsSumOfMultiples (length x.now) p x.now q y.now result.items }
    ensures bound { All (λ a. nat_abs a ≤ 2 ^ 96) result.items }
{
    let mut entries = ArrayVec::new();
    for i in 0..x.len() {
        entries.push(entry_sum(p, x[i], q, y[i]));
    }
    entries
}

/// The largest absolute value of the entries.
fn largest_of(x: &[i128]) -> u128
    ensures { result ≡ largest x.now }
{
    let mut most = 0;
    for entry in x {
        most = most.max(entry.unsigned_abs());
    }
    most
}

/// The vector with these entries.
fn narrowed_entries(x: &[i128]) -> FrameVector
    requires most { length x.now ≤ MOST_WEIGHTS }
    requires within { largest x.now ≤ MOST_FRAME_ENTRY }
    ensures { result ≡ x.now }
{
    let mut entries = ArrayVec::new();
    for entry in x {
        entries.push(narrowed_entry(*entry));
    }
    FrameVector::new(entries)
}

/// The vector `p x + q y`. Where it has an entry above the limit, the largest absolute value of its entries is told.
pub(crate) fn sum_of_multiples(
    p: i128,
    x: &FrameVector,
    q: i128,
    y: &FrameVector,
) -> Result<FrameVector, u128>
    requires same { length x.now ≡ length y.now }
    requires first { nat_abs p ≤ 2 ^ 55 }
    requires second { nat_abs q ≤ 2 ^ 55 }
    requires left { largest x.now ≤ MOST_FRAME_ENTRY }
    requires right { largest y.now ≤ MOST_FRAME_ENTRY }
    ensures { MatchResult result (IsSmallSum (length x.now) p x.now q y.now) (IsLargeSum (length x.now) p x.now q y.now) }
{
    let entries = sum_entries(p, x.entries(), q, y.entries());
    let most = largest_of(entries.as_slice());
    if most > MOST_FRAME_ENTRY {
        return Err(most);
    }
    Ok(narrowed_entries(entries.as_slice()))
}
