//! The search for the next nef partition. It goes on from a beginning only where for each vertex and part some candidate agrees with it.

ghost use Rattle.std.specs.Prelude.{◌≡◌, ◌<◌, ◌≤◌, length, take};
ghost use Rattle.nef_parts.specs.declared.beginnings.TheConstants.{MOST_PARTS};
ghost use Rattle.nef_parts.specs.steps.Tables.{IsTable};
ghost use Rattle.nef_parts.specs.steps.Beginnings.{IsBeginning};
ghost use Rattle.nef_parts.specs.steps.Completions.{Completes, FollowsOn, Begins};
ghost use Rattle.nef_parts.specs.steps.Nef.{IsNefIn};

use crate::agreeing::{Hints, all_agree};
use crate::beginnings::{Beginning, beginning_of};
use crate::masks::Table;

/// Completes a beginning by part numbers from its end on, of which the first is at least `from`. It finds the first completion in lexicographic
/// order, or keeps the beginning where there is none.
fn complete(
    table: &Table,
    r: usize,
    begin: Beginning,
    from: usize,
    parts: &mut [u8],
    hints: &mut [Hints],
) -> bool
    requires table { IsTable table.now }
    requires some { 1 ≤ r }
    requires few { r ≤ MOST_PARTS }
    requires whole { length parts.old ≡ length table.now.normals.items }
    requires place { begin.count ≤ length parts.old }
    requires from { begin.count ≡ length parts.old → from ≡ 0 }
    requires begins { IsBeginning (take begin.count parts.old) begin }
    requires hints { length hints.old ≡ length table.now.masks.items }
    ensures parts { length parts.new ≡ length parts.old }
    ensures hints { length hints.new ≡ length hints.old }
    ensures completes { Completes (IsNefIn table.now r) begin.count from parts.old parts.new result }
{
    let most = r.min(begin.used + 1);
    if from >= most {
        return false;
    }
    if !all_agree(&table.masks, &begin, r, hints) {
        return false;
    }
    if begin.count == parts.len() {
        return begin.used == r;
    }
    for v in from..most {
        parts[begin.count] = v as u8;
        if complete(table, r, begin.with(v), 0, parts, hints) {
            return true;
        }
    }
    false
}

/// Moves to the next nef partition in lexicographic order. Where there is none, the part numbers are lost.
pub(crate) fn advance(table: &Table, r: usize, parts: &mut [u8], hints: &mut [Hints]) -> bool
    requires table { IsTable table.now }
    requires some { 1 ≤ r }
    requires few { r ≤ MOST_PARTS }
    requires nef { IsNefIn table.now r parts.old }
    requires hints { length hints.old ≡ length table.now.masks.items }
    ensures parts { length parts.new ≡ length parts.old }
    ensures hints { length hints.new ≡ length hints.old }
    ensures follows { FollowsOn (IsNefIn table.now r) parts.old parts.new result }
{
    for place in (0..parts.len()).rev() {
        let from = parts[place] as usize + 1;
        let begin = beginning_of(parts, place);
        if complete(table, r, begin, from, parts, hints) {
            return true;
        }
    }
    false
}

/// Moves to the first nef partition.
pub(crate) fn begin(table: &Table, r: usize, parts: &mut [u8], hints: &mut [Hints]) -> bool
    requires table { IsTable table.now }
    requires some { 1 ≤ r }
    requires few { r ≤ MOST_PARTS }
    requires whole { length parts.old ≡ length table.now.normals.items }
    requires hints { length hints.old ≡ length table.now.masks.items }
    ensures parts { length parts.new ≡ length parts.old }
    ensures hints { length hints.new ≡ length hints.old }
    ensures begins { Begins (IsNefIn table.now r) parts.new result }
{
    complete(table, r, Beginning::none(), 0, parts, hints)
}
