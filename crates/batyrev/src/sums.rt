//! Sums over the faces of a rank or a corank.
ghost use Rattle.std.specs.Prelude.{◌≡◌, ◌*◌, ◌<◌, ◌≤◌, ◌^◌, length, slice_index_or};
ghost use Rattle.face_poset.specs.Faces.{face_at};
ghost use Rattle.face_closing.specs.declared.limits.TheConstants.{MOST_FACES};
ghost use Rattle.dual_pair.specs.Polytopes.{PolytopeState};
ghost use Rattle.dual_pair.specs.Faces.{AreFacesOf};
ghost use Rattle.batyrev.specs.Levels.{IsAt, IsTaken, IsLevelSum};

use crate::coranks::{Level, is_at};
use face_poset::FaceTable;

/// The number where the face is one of those that are meant, and otherwise 0. Of a face with the number 0 the level isn't asked.
fn taken(table: &FaceTable, face: u32, level: Level, number: u64) -> u64
    requires { face < length table.now.faces }
    ensures taken { (p : PolytopeState) → AreFacesOf p table.now → IsTaken (IsAt p level (face_at table.now.faces face)) number result }
    ensures most { result ≤ number }
{
    if number == 0 {
        return 0;
    }
    if is_at(table, face, level) { number } else { 0 }
}

/// The sum of the counts of the faces of a level.
pub(crate) fn count_sum(table: &FaceTable, counts: &[u16], level: Level) -> u64
    requires { length counts.now ≡ MOST_FACES }
    ensures sum { (p : PolytopeState) → AreFacesOf p table.now
        → IsLevelSum p level table.now.faces (λ k. slice_index_or counts.now k 0) (length table.now.faces) result }
    ensures most { result ≤ 2 ^ 44 }
{
    let mut sum = 0;
    for face in 0..table.len() {
        sum += taken(table, face, level, u64::from(counts[face as usize]));
    }
    sum
}

/// The sum of the products of two counts over the faces of a level.
pub(crate) fn product_sum(table: &FaceTable, inner: &[u16], outer: &[u16], level: Level) -> u64
    requires inner { length inner.now ≡ MOST_FACES }
    requires outer { length outer.now ≡ MOST_FACES }
    ensures sum { (p : PolytopeState) → AreFacesOf p table.now
        → IsLevelSum p level table.now.faces (λ k. slice_index_or inner.now k 0 * slice_index_or outer.now k 0) (length table.now.faces) result }
    ensures most { result ≤ 2 ^ 44 }
{
    let mut sum = 0;
    for face in 0..table.len() {
        let product = u64::from(inner[face as usize]) * u64::from(outer[face as usize]);
        sum += taken(table, face, level, product);
    }
    sum
}
