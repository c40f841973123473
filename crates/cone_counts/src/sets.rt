//! The sets of vectors by which faces are counted.
ghost use Rattle.std.specs.Prelude.{◌≡◌, ℕ, ◌*◌, ◌<◌, ◌≤◌, length, IfOk};
ghost use Rattle.bit_pool.specs.Bits.{words_for};
ghost use Rattle.face_poset.specs.Faces.{face_at};
ghost use Rattle.cone_counts.specs.CountSteps.{words_on, width_on, AreFaceSets, IsOpened};

use bit_pool::Generation;
use dual_pair::Side;
use face_poset::FaceTable;
use lattice_core::NoMemory;
use std::alloc::Global;

/// The functions of the face's dual face on side M, and the members of the face on side N, as words.
fn words_of(table: &FaceTable, side: Side, face: u32) -> &[u64]
    requires { face < length table.now.faces }
    ensures { result.now ≡ words_on side (face_at table.now.faces face) }
{
    match side {
        Side::M => table.functions_of(face),
        Side::N => table.members_of(face),
    }
}

/// How many words hold a bit for each of so many vectors, where those of the table's faces do.
pub(crate) fn words_for(table: &FaceTable, side: Side, vectors: usize) -> usize
    requires { words_for vectors ≤ words_for (width_on side table.now) }
    ensures value { result ≡ words_for vectors }
    ensures most { result ≤ 64 }
{
    let width = match side {
        Side::M => table.functions(),
        Side::N => table.members(),
    };
    ((vectors + 63) / 64).min((width as usize + 63) / 64)
}

/// No sets, of so many words, with room for these.
pub(crate) fn open_sets(alloc: Global, words: usize, sets: usize) -> Result<Generation, NoMemory>
    requires some { 1 ≤ words }
    requires most { words ≤ 64 }
    requires few { sets ≤ 4097 }
    ensures { IfOk result (IsOpened words sets) }
{
    match Generation::open(alloc, 0, words, sets) {
        Ok(opened) => Ok(opened),
        Err(_) => Err(NoMemory),
    }
}

/// The sets of all faces, each in so many words, and behind them the empty one.
pub(crate) fn face_sets(
    alloc: Global,
    table: &FaceTable,
    side: Side,
    words: usize,
) -> Result<Generation, NoMemory>
    requires some { 1 ≤ words }
    requires most { words ≤ 64 }
    requires wide { (face : ℕ) → face < length table.now.faces → words ≤ length (words_on side (face_at table.now.faces face)) }
    ensures sets { IfOk result (λ sets. AreFaceSets side table.now.faces words sets.rows) }
    ensures few { IfOk result (λ sets. length sets.rows ≤ 4097) }
{
    let mut sets = open_sets(alloc, words, table.len() as usize + 1)?;
    for face in 0..table.len() {
        sets.push(&words_of(table, side, face)[..words]);
    }
    sets.push(&[0; 64][..words]);
    Ok(sets)
}
