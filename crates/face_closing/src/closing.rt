//! The closing of a table under what its rows have in common with others.
ghost use Rattle.std.specs.Prelude.{◌≡◌, length};
ghost use Rattle.std.specs.Bool.{MatchBool, OnTrue};
ghost use Rattle.std.specs.List.{All};
ghost use Rattle.face_theory.specs.Faces.{TightRelation};
ghost use Rattle.face_closing.specs.Tables.{AreApart, IsClosedBy, MakesTooMany, AreFunctionRows, AreMeetRows, AreFaceRows, HasMoreFaces};

use crate::RowTable;
use crate::words::meet_into;
use bit_pool::Generation;

/// Adds what the rows of a table have in common with one more row, each once. False where there are too many. The space is as long as a row.
fn close_with(table: &mut RowTable, row: &[u64], space: &mut [u64]) -> bool
    requires words { length row.now ≡ table.old.row_words }
    requires space { length space.old ≡ table.old.row_words }
    requires apart { AreApart table.old.rows }
    ensures words { table.new.row_words ≡ table.old.row_words }
    ensures space { length space.new ≡ length space.old }
    ensures closed { MatchBool result (IsClosedBy row.now table.old.rows table.new.rows) (MakesTooMany row.now table.old.rows) }
{
    for place in 0..table.len() {
        meet_into(space, table.row(place), row);
        if !table.add(space) {
            return false;
        }
    }
    true
}

/// Adds to a table what its rows and the rows of functions have in common, each once. Where it had the row of all members alone, it has all faces
/// then. False where there are more than 4,096. The space is as long as a row.
pub fn close(table: &mut RowTable, rows: &Generation, space: &mut [u64]) -> bool
    requires words { rows.now.row_words ≡ table.old.row_words }
    requires long { All (λ row. length row ≡ table.old.row_words) rows.now.rows }
    requires space { length space.old ≡ table.old.row_words }
    requires apart { AreApart table.old.rows }
    ensures words { table.new.row_words ≡ table.old.row_words }
    ensures space { length space.new ≡ length space.old }
    ensures apart { OnTrue result (AreApart table.new.rows) }
    ensures faces { (R : TightRelation) → AreFunctionRows table.old.row_words R rows.now.rows → AreMeetRows table.old.row_words R 0 table.old.rows
        → MatchBool result (AreFaceRows table.old.row_words R table.new.rows) (HasMoreFaces R) }
{
    for function in 0..rows.len() {
        if !close_with(table, rows.row(function), space) {
            return false;
        }
    }
    true
}
