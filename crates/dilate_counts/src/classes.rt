//! Classes of points: those to which, with their bases, the same vectors pair to 0. Points are counted by their classes, and the sets get the numbers of
//! all classes at the end.
ghost use Rattle.std.specs.Prelude.{◌≡◌, ℕ, ◌+◌, ◌*◌, ◌^◌, ◌<◌, ◌≤◌, length, slice_index_or};
ghost use Rattle.std.specs.List.{All};
ghost use Rattle.bit_pool.specs.Bits.{IsSubset};
ghost use Rattle.base_counts.specs.Counting.{HaveWords, set_at, count_at};
ghost use Rattle.base_counts.specs.Visited.{AreWithin};
ghost use Rattle.base_counts.specs.declared.counts.TheConstants.{DEGREES};
ghost use Rattle.face_closing.specs.declared.limits.TheConstants.{MOST_FACES};
ghost use Rattle.dilate_counts.specs.Classes.{AreShared, AreTotalsRaised, HaveFewTotals, IsClassOf, IsClear, IsShared, IsSummed, StayLow};
ghost use Rattle.dilate_counts.specs.declared.limits.TheConstants.{MOST_COUNTED};

use base_counts::{DEGREES, add_point};
use bit_pool::{Generation, is_within};
use face_closing::{MOST_FACES, RowTable};

/// The place of the class with these words, which is made where there is room for it.
fn class_of(classes: &mut RowTable, words: &[u64]) -> Option<usize>
    requires { length words.now ≡ classes.old.row_words }
    ensures row_words { classes.new.row_words ≡ classes.old.row_words }
    ensures few { length classes.new.rows ≤ MOST_FACES }
    ensures class { IsClassOf classes.old.rows words.now classes.new.rows result }
{
    let count = classes.len();
    if let Some(place) = classes.find(words) {
        return Some(place);
    }
    if count == MOST_FACES {
        return None;
    }
    classes.push(words);
    Some(count)
}

/// Counts a point of a degree in its class, or for each of the sets where there is no room for the class.
pub(crate) fn count_in(
    classes: &mut RowTable,
    seen: &mut [u32],
    counts: &mut [u32],
    sets: &Generation,
    tight: &[u64],
    degree: usize,
)
    requires degree { degree < DEGREES }
    requires row { length tight.now ≡ classes.old.row_words }
    requires words { HaveWords (length tight.now) sets.now.rows }
    requires places { length seen.old ≡ MOST_FACES * DEGREES }
    requires room { length counts.old ≡ length sets.now.rows * DEGREES }
    requires low_seen { All (λ count. count < 2 ^ 31) seen.old }
    requires low_counts { All (λ count. count < 2 ^ 31) counts.old }
    ensures row_words { classes.new.row_words ≡ classes.old.row_words }
    ensures places { length seen.new ≡ length seen.old }
    ensures whole { length counts.new ≡ length counts.old }
    ensures clear { IsClear classes.old.rows seen.old → IsClear classes.new.rows seen.new }
    ensures seen_low { StayLow seen.old seen.new }
    ensures counts_low { StayLow counts.old counts.new }
    ensures totals { (width : ℕ) → AreWithin width sets.now.rows → IsClear classes.old.rows seen.old
        → AreTotalsRaised sets.now.rows tight.now degree classes.old.rows seen.old counts.old classes.new.rows seen.new counts.new }
{
    match class_of(classes, tight) {
        Some(place) => seen[place * DEGREES + degree] += 1,
        None => add_point(counts, sets, tight, degree),
    }
}

/// Adds the numbers of a class to those of a set.
fn add_degrees(counts: &mut [u32], at: usize, seen: &[u32])
    requires room { at + DEGREES ≤ length counts.old }
    requires degrees { length seen.now ≡ DEGREES }
    requires few { (l : ℕ) → l < DEGREES → slice_index_or counts.old (at + l) 0 + slice_index_or seen.now l 0 ≤ MOST_COUNTED }
    ensures whole { length counts.new ≡ length counts.old }
    ensures summed { IsSummed at seen.now DEGREES counts.old counts.new }
{
    for l in 0..DEGREES {
        counts[at + l] += seen[l];
    }
}

/// Adds the numbers of a class to those of each set that is within its words.
fn share(counts: &mut [u32], sets: &Generation, words: &[u64], seen: &[u32])
    requires room { length counts.old ≡ length sets.now.rows * DEGREES }
    requires degrees { length seen.now ≡ DEGREES }
    requires words { HaveWords (length words.now) sets.now.rows }
    requires few { (k l : ℕ) → k < length sets.now.rows → l < DEGREES → IsSubset (set_at sets.now.rows k) words.now
        → count_at counts.old k l + slice_index_or seen.now l 0 ≤ MOST_COUNTED }
    ensures whole { length counts.new ≡ length counts.old }
    ensures shared { IsShared sets.now.rows words.now seen.now (length sets.now.rows) counts.old counts.new }
{
    for k in 0..sets.len() {
        if is_within(sets.row(k), words) {
            add_degrees(counts, k * DEGREES, seen);
        }
    }
}

/// Adds the numbers of all classes to those of the sets that are within their words.
pub(crate) fn share_all(counts: &mut [u32], sets: &Generation, classes: &RowTable, seen: &[u32])
    requires room { length counts.old ≡ length sets.now.rows * DEGREES }
    requires places { length seen.now ≡ MOST_FACES * DEGREES }
    requires words { HaveWords classes.now.row_words sets.now.rows }
    requires few { HaveFewTotals sets.now.rows classes.now.rows seen.now counts.old }
    ensures whole { length counts.new ≡ length counts.old }
    ensures shared { AreShared sets.now.rows classes.now.rows seen.now (length classes.now.rows) counts.old counts.new }
{
    for c in 0..classes.len() {
        let first = c * DEGREES;
        share(counts, sets, classes.row(c), &seen[first..first + DEGREES]);
    }
}
