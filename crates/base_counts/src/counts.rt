//! Counts of points by their sets and degrees.
ghost use Rattle.std.specs.Prelude.{◌≡◌, ◌*◌, ◌^◌, ◌<◌, ◌≤◌, ℕ, [], length, slice_index_or};
ghost use Rattle.std.specs.List.{All};
ghost use Rattle.base_counts.specs.Counting.{HaveWords, IsAddedAt};
ghost use Rattle.base_counts.specs.declared.counts.TheConstants.{DEGREES};

use bit_pool::{Generation, is_within};

/// How many degrees are told apart: from 0 to 6.
pub const DEGREES: usize = 7;

/// Counts a point of a degree, and of a set of tight vectors, for each set that is within it: the counts stand set by set, and degree by degree for each
/// set.
pub fn add_point(counts: &mut [u32], sets: &Generation, tight: &[u64], degree: usize)
    requires degree { degree < DEGREES }
    requires room { length sets.now.rows * DEGREES ≤ length counts.old }
    requires words { HaveWords (length tight.now) sets.now.rows }
    requires few { All (λ count. count < 2 ^ 31) counts.old }
    ensures whole { length counts.new ≡ length counts.old }
    ensures added { IsAddedAt sets.now.rows tight.now degree counts.old counts.new }
{
    for k in 0..sets.len() {
        if is_within(sets.row(k), tight) {
            counts[k * DEGREES + degree] += 1;
        }
    }
}
