//! Rows of a table of truth values.
ghost use Rattle.std.specs.Prelude.{◌≡◌, ℕ, ◌+◌, ◌*◌, ◌<◌, ◌≤◌, false, length, slice_index_or};
ghost use Rattle.bit_pool.specs.declared.limits.TheConstants.{MOST_WIDTH, MOST_ROWS};
ghost use Rattle.incidence.specs.Incidences.{HasExactly};
ghost use Rattle.incidence.specs.RowSteps.{AddsRows, IsTableRow};

use crate::words::{push_words, put_bit};
use bit_pool::RowPool;

/// The words of the numbers below `count` at which the table is true, in steps from a place on.
fn table_row(tight: &[bool], start: usize, step: usize, count: usize) -> [u64; 64]
    requires count { count ≤ MOST_WIDTH }
    requires step { step ≤ MOST_WIDTH }
    requires start { start ≤ MOST_ROWS }
    requires within { (n : ℕ) → n < count → start + n * step < length tight.now }
    ensures whole { length result ≡ 64 }
    ensures bits { HasExactly count (λ n. slice_index_or tight.now (start + n * step) false) result }
{
    let mut words = [0; 64];
    for n in 0..count {
        if tight[start + n * step] {
            put_bit(&mut words, n);
        }
    }
    words
}

/// Adds a row for each of so many numbers: that of k has the numbers below `count` at which the table is true, in steps from k times the row
/// step on.
pub(crate) fn push_table(
    pool: &mut RowPool,
    tight: &[bool],
    rows: usize,
    row_step: usize,
    count: usize,
    step: usize,
)
    requires rows { rows ≤ MOST_WIDTH }
    requires row_step { row_step ≤ MOST_WIDTH }
    requires step { step ≤ MOST_WIDTH }
    requires most { count ≤ MOST_WIDTH }
    requires width { count ≤ pool.old.width }
    requires room { length pool.old.young_generation.rows + rows ≤ pool.old.young_generation.reserved }
    requires within { (k n : ℕ) → k < rows → n < count → k * row_step + n * step < length tight.now }
    ensures { AddsRows pool.old pool.new rows (IsTableRow tight.now row_step count step) }
{
    for k in 0..rows {
        push_words(pool, &table_row(tight, k * row_step, step, count));
    }
}
