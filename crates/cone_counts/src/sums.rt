//! Sums of the numbers of a set over degrees.
ghost use Rattle.std.specs.Prelude.{◌≡◌, ℕ, ◌+◌, ◌*◌, ◌^◌, ◌<◌, ◌≤◌, length};
ghost use Rattle.std.specs.List.{All};
ghost use Rattle.base_counts.specs.Counting.{count_at};
ghost use Rattle.base_counts.specs.declared.counts.TheConstants.{DEGREES};
ghost use Rattle.cone_counts.specs.CountSteps.{IsSummed, AreSummed, AreLong};

use crate::free::count_within;
use base_counts::DEGREES;
use bit_pool::Generation;

/// Puts in the place of each number of a set the sum of those up to its degree.
fn sum_up(counts: &mut [u32], set: usize)
    requires room { set * DEGREES + DEGREES ≤ length counts.old }
    requires small { (l : ℕ) → l < DEGREES → count_at counts.old set l < 2 ^ 29 }
    ensures whole { length counts.new ≡ length counts.old }
    ensures summed { IsSummed 1 set counts.old counts.new }
{
    let first = set * DEGREES;
    for degree in 1..DEGREES {
        counts[first + degree] += counts[first + degree - 1];
    }
}

/// Does so as often as this.
fn sum_often(counts: &mut [u32], set: usize, times: usize)
    requires room { set * DEGREES + DEGREES ≤ length counts.old }
    requires small { (l : ℕ) → l < DEGREES → count_at counts.old set l ≤ 2 ^ 22 }
    requires few { times ≤ 3 }
    ensures whole { length counts.new ≡ length counts.old }
    ensures summed { IsSummed times set counts.old counts.new }
{
    for time in 0..times {
        sum_up(counts, set);
    }
}

/// Does so for each set, as often as it is within one of the masks.
pub(crate) fn sum_all(counts: &mut [u32], sets: &Generation, masks: &Generation)
    requires room { length counts.old ≡ length sets.now.rows * DEGREES }
    requires small { All (λ count. count ≤ 2 ^ 22) counts.old }
    requires few { length masks.now.rows ≤ 3 }
    requires words { (words : ℕ) × AreLong words sets.now.rows × AreLong words masks.now.rows }
    ensures whole { length counts.new ≡ length counts.old }
    ensures summed { AreSummed masks.now.rows sets.now.rows counts.old counts.new }
{
    for set in 0..sets.len() {
        sum_often(counts, set, count_within(sets.row(set), masks));
    }
}
