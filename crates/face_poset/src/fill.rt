//! A building of a table, part by part.
ghost use Rattle.std.specs.Prelude.{◌≡◌, ◌*◌, ℕ, ◌≤◌, length, vec_capacity};
ghost use Rattle.std.specs.List.{AllPairs};
ghost use Rattle.bit_pool.specs.Bits.{words_for};
ghost use Rattle.bit_pool.specs.declared.limits.TheConstants.{MOST_WIDTH};
ghost use Rattle.face_closing.specs.declared.limits.TheConstants.{MOST_FACES};
ghost use Rattle.face_poset.specs.Faces.{ComesBefore};
ghost use Rattle.face_poset.specs.Builds.{IsBuilt};

use crate::build::list_faces;
use crate::list::FaceList;
use crate::rows::{ask_rows, copy_rows, find_faces};
use crate::table::BuildFault;
use bit_pool::{Generation, RowPool};
use face_closing::{MOST_FACES, RowTable, rank_into, sort_into};
use incidence::Incidence;

/// Fills a list with the faces of the relation that an incidence's rows in a pool tell. The other parts are the room for it: for the rows of the
/// functions, for the faces as they are found and in order, for lists of 4,096 numbers, and for one set of members and one of functions.
pub(crate) fn fill(
    list: &mut FaceList,
    rows: &mut Generation,
    found: &mut RowTable,
    sorted: &mut RowTable,
    order: &mut Vec<u16>,
    ranks: &mut Vec<u16>,
    space: &mut [u64],
    dual: &mut [u64],
    table: &Incidence,
    pool: &RowPool,
) -> Result<(), BuildFault>
    requires list_members { list.old.member_words ≡ rows.old.row_words }
    requires list_functions { list.old.function_words ≡ length dual.old }
    requires found { found.old.row_words ≡ rows.old.row_words }
    requires sorted { sorted.old.row_words ≡ rows.old.row_words }
    requires space { length space.old ≡ rows.old.row_words }
    requires rows { MOST_WIDTH * rows.old.row_words ≤ rows.old.room }
    requires order { MOST_FACES ≤ vec_capacity order.old }
    requires ranks { MOST_FACES ≤ vec_capacity ranks.old }
    requires members { table.now.members ≤ 64 * rows.old.row_words }
    requires functions { table.now.functions ≤ 64 * length dual.old }
    requires few_members { table.now.members ≤ MOST_WIDTH }
    requires few_functions { table.now.functions ≤ MOST_WIDTH }
    ensures list_members { list.new.member_words ≡ list.old.member_words }
    ensures list_functions { list.new.function_words ≡ list.old.function_words }
    ensures rows_words { rows.new.row_words ≡ rows.old.row_words }
    ensures rows_room { rows.old.room ≤ rows.new.room }
    ensures found { found.new.row_words ≡ found.old.row_words }
    ensures sorted { sorted.new.row_words ≡ sorted.old.row_words }
    ensures order { MOST_FACES ≤ vec_capacity order.new }
    ensures ranks { MOST_FACES ≤ vec_capacity ranks.new }
    ensures space { length space.new ≡ length space.old }
    ensures dual { length dual.new ≡ length dual.old }
    ensures ascending { AllPairs ComesBefore list.new.faces }
    ensures built { (members functions : ℕ) → rows.old.row_words ≡ words_for members → length dual.old ≡ words_for functions
        → IsBuilt pool.now table.now (record { members = members; functions = functions; faces = list.new.faces }) result }
{
    list.clear();
    if let Err(stale) = ask_rows(table, pool) {
        return Err(BuildFault::Stale(stale));
    }
    copy_rows(rows, table, pool, space);
    if !find_faces(found, rows, space, table.members() as usize) {
        return Err(BuildFault::FaceLimit(MOST_FACES as u32 + 1));
    }
    sort_into(sorted, found, order);
    rank_into(ranks, sorted, rows, space);
    list_faces(list, sorted, ranks, rows, dual);
    Ok(())
}
