//! The rows of an incidence, as they are asked of a pool.
ghost use Rattle.std.specs.Prelude.{◌≡◌, ◌⊎◌, ◌↔◌, ℕ, ◌+◌, ◌*◌, ◌<◌, ◌≤◌, length, MatchResult, ◌^◌, slice_index_or};
ghost use Rattle.std.specs.Bool.{MatchBool, OnTrue};
ghost use Rattle.std.specs.List.{All};
ghost use Rattle.face_theory.specs.Faces.{TightRelation};
ghost use Rattle.face_closing.specs.Tables.{AreApart, AreFunctionRows, AreFaceRows, HasMoreFaces};
ghost use Rattle.incidence.specs.Incidences.{Tells};
ghost use Rattle.face_poset.specs.Builds.{id_at, HasAllRows, LacksFirst};
ghost use Rattle.face_poset.specs.RowSteps.{IsFitted, HasFirst};
ghost use Rattle.bit_pool.specs.declared.limits.TheConstants.{MOST_WIDTH};

use bit_pool::{Generation, RowId, RowPool, Stale};
use face_closing::{RowTable, close};
use incidence::{Incidence, put_bit};

/// The id of a row of an incidence: first come the members' rows, then the functions'.
fn row_id(incidence: &Incidence, number: u32) -> RowId
    requires { number < incidence.now.members + incidence.now.functions }
    ensures { result ≡ id_at incidence.now number }
{
    if number < incidence.members() {
        incidence.member_row(number)
    } else {
        incidence.function_row(number - incidence.members())
    }
}

/// Asks a pool for all rows of an incidence. `Stale` tells the first one that it lacks.
pub(crate) fn ask_rows(incidence: &Incidence, pool: &RowPool) -> Result<(), Stale>
    requires members { incidence.now.members ≤ MOST_WIDTH }
    requires functions { incidence.now.functions ≤ MOST_WIDTH }
    ensures { MatchResult result (λ done. HasAllRows pool.now incidence.now) (LacksFirst pool.now incidence.now) }
{
    for number in 0..incidence.members() + incidence.functions() {
        pool.row(row_id(incidence, number))?;
    }
    Ok(())
}

/// Writes the words of a set into a space that may have more words, or fewer: words that are missing are zero.
fn fit(space: &mut [u64], words: &[u64])
    ensures long { length space.new ≡ length space.old }
    ensures bits { IsFitted words.now space.new }
{
    for i in 0..space.len() {
        space[i] = if i < words.len() { words[i] } else { 0 };
    }
}

/// Writes the words of the set of the first numbers.
fn fill_first(space: &mut [u64], count: usize)
    requires { count ≤ 64 * length space.old }
    ensures long { length space.new ≡ length space.old }
    ensures small { (i : ℕ) → slice_index_or space.new i 0 < 2 ^ 64 }
    ensures bits { HasFirst count space.new }
{
    space.fill(0);
    for number in 0..count {
        put_bit(space, number);
    }
}

/// Copies the rows of an incidence's functions out of a pool that has them all.
pub(crate) fn copy_rows(
    rows: &mut Generation,
    incidence: &Incidence,
    pool: &RowPool,
    space: &mut [u64],
)
    requires all { HasAllRows pool.now incidence.now }
    requires long { length space.old ≡ rows.old.row_words }
    requires members { incidence.now.members ≤ 64 * rows.old.row_words }
    requires functions { incidence.now.functions ≤ MOST_WIDTH }
    requires room { MOST_WIDTH * rows.old.row_words ≤ rows.old.room }
    ensures words { rows.new.row_words ≡ rows.old.row_words }
    ensures room { rows.old.room ≤ rows.new.room }
    ensures space { length space.new ≡ length space.old }
    ensures many { length rows.new.rows ≡ incidence.now.functions }
    ensures long { All (λ row. length row ≡ rows.old.row_words) rows.new.rows }
    ensures rows { (R : TightRelation) → Tells pool.now incidence.now R → AreFunctionRows rows.old.row_words R rows.new.rows }
{
    rows.restart(0);
    for function in 0..incidence.functions() {
        match pool.row(incidence.function_row(function)) {
            Ok(words) => fit(space, words),
            Err(_) => unreachable!(),
        }
        rows.push(space);
    }
}

/// Finds the faces of a relation of so many members, of whose functions these are the rows. False where there are more than 4,096.
pub(crate) fn find_faces(
    found: &mut RowTable,
    rows: &Generation,
    space: &mut [u64],
    members: usize,
) -> bool
    requires words { rows.now.row_words ≡ found.old.row_words }
    requires long { All (λ row. length row ≡ found.old.row_words) rows.now.rows }
    requires space { length space.old ≡ found.old.row_words }
    requires members { members ≤ 64 * found.old.row_words }
    ensures words { found.new.row_words ≡ found.old.row_words }
    ensures space { length space.new ≡ length space.old }
    ensures apart { OnTrue result (AreApart found.new.rows) }
    ensures faces { (R : TightRelation) → R.members ≡ members → AreFunctionRows found.old.row_words R rows.now.rows
        → MatchBool result (AreFaceRows found.old.row_words R found.new.rows) (HasMoreFaces R) }
{
    found.clear();
    fill_first(space, members);
    found.push(space);
    close(found, rows, space)
}
