//! The ranks of faces.
ghost use Rattle.std.specs.Prelude.{◌≡◌, ◌+◌, ℕ, ◌<◌, ◌≤◌, length, vec_capacity, slice_index_or};
ghost use Rattle.std.specs.List.{All, AllPairs};
ghost use Rattle.face_theory.specs.Faces.{TightRelation, IsRank};
ghost use Rattle.face_closing.specs.Words.{IsEarlier, set_of};
ghost use Rattle.face_closing.specs.Tables.{AreFunctionRows, AreFaceRows};
ghost use Rattle.face_closing.specs.steps.Chains.{row_at};
ghost use Rattle.face_closing.specs.steps.PartRanks.{AreLow, IsPartRank, HasRank};
ghost use Rattle.face_closing.specs.declared.limits.TheConstants.{MOST_FACES};

use crate::RowTable;
use crate::words::meet_into;
use bit_pool::Generation;

/// One more than the rank of a part of the row at a place; 0 where the part is the row itself.
#[inline]
fn rank_over_part(sorted: &RowTable, ranks: &[u16], place: usize, part: &[u64]) -> u16
    requires place { place < length sorted.now.rows }
    requires many { length ranks.now ≡ length sorted.now.rows }
    requires low { AreLow ranks.now }
    ensures { IsPartRank sorted.now.rows ranks.now place part.now result }
{
    if part == sorted.row(place) {
        return 0;
    }
    match sorted.find(part) {
        Some(found) => ranks[found] + 1,
        None => 0,
    }
}

/// The rank of the row at a place as `rank_at` tells it, where a row is one word.
fn rank_of_word(sorted: &RowTable, rows: &Generation, ranks: &[u16], place: usize) -> u16
    requires word { sorted.now.row_words ≡ 1 }
    requires place { place < length sorted.now.rows }
    requires many { length ranks.now ≡ length sorted.now.rows }
    requires low { AreLow ranks.now }
    requires long { All (λ row. length row ≡ sorted.now.row_words) rows.now.rows }
    requires ascending { AllPairs IsEarlier sorted.now.rows }
    ensures low { result + place < length ranks.now }
    ensures rank { (R : TightRelation) → AreFunctionRows sorted.now.row_words R rows.now.rows → AreFaceRows sorted.now.row_words R sorted.now.rows
        → ((k : ℕ) → place < k → k < length ranks.now → HasRank R sorted.now.rows ranks.now k)
        → IsRank R (set_of R.members (row_at sorted.now.rows place)) result }
{
    let here = sorted.row(place)[0];
    let mut rank = 0;
    for function in 0..rows.len() {
        let part = [here & rows.row(function)[0]];
        let next = rank_over_part(sorted, ranks, place, &part);
        if next > rank {
            rank = next;
        }
    }
    rank
}

/// The rank of the row at a place, where the rows are all faces in order and those behind it have these ranks.
fn rank_at(
    sorted: &RowTable,
    rows: &Generation,
    ranks: &[u16],
    place: usize,
    space: &mut [u64],
) -> u16
    requires place { place < length sorted.now.rows }
    requires many { length ranks.now ≡ length sorted.now.rows }
    requires low { AreLow ranks.now }
    requires long { All (λ row. length row ≡ sorted.now.row_words) rows.now.rows }
    requires space { length space.old ≡ sorted.now.row_words }
    requires ascending { AllPairs IsEarlier sorted.now.rows }
    ensures space { length space.new ≡ length space.old }
    ensures low { result + place < length ranks.now }
    ensures rank { (R : TightRelation) → AreFunctionRows sorted.now.row_words R rows.now.rows → AreFaceRows sorted.now.row_words R sorted.now.rows
        → ((k : ℕ) → place < k → k < length ranks.now → HasRank R sorted.now.rows ranks.now k)
        → IsRank R (set_of R.members (row_at sorted.now.rows place)) result }
{
    if space.len() == 1 {
        return rank_of_word(sorted, rows, ranks, place);
    }
    let mut rank = 0;
    for function in 0..rows.len() {
        meet_into(space, sorted.row(place), rows.row(function));
        let next = rank_over_part(sorted, ranks, place, space);
        if next > rank {
            rank = next;
        }
    }
    rank
}

/// Writes the ranks of rows that are all faces, in order. The list has room for 4,096 numbers, and the space is as long as a row.
pub fn rank_into(ranks: &mut Vec<u16>, sorted: &RowTable, rows: &Generation, space: &mut [u64])
    requires room { MOST_FACES ≤ vec_capacity ranks.old }
    requires long { All (λ row. length row ≡ sorted.now.row_words) rows.now.rows }
    requires space { length space.old ≡ sorted.now.row_words }
    requires ascending { AllPairs IsEarlier sorted.now.rows }
    ensures room { MOST_FACES ≤ vec_capacity ranks.new }
    ensures space { length space.new ≡ length space.old }
    ensures many { length ranks.new.items ≡ length sorted.now.rows }
    ensures low { AreLow ranks.new.items }
    ensures ranks { (R : TightRelation) → AreFunctionRows sorted.now.row_words R rows.now.rows → AreFaceRows sorted.now.row_words R sorted.now.rows
        → (k : ℕ) → k < length ranks.new.items → HasRank R sorted.now.rows ranks.new.items k }
{
    ranks.clear();
    if ranks.resize(sorted.len(), 0).is_err() {
        unreachable!();
    }
    let mut place = sorted.len();
    while place > 0 {
        place -= 1;
        ranks[place] = rank_at(sorted, rows, ranks, place, space);
    }
}
