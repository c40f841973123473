//! Faces of corank 1 and 2: facets, and faces of facets.
ghost use Rattle.std.specs.Prelude.{◌≡◌, ◌↔◌, ◌<◌, length, IsTrue};
ghost use Rattle.face_theory.specs.Faces.{IsCorank};
ghost use Rattle.face_poset.specs.Faces.{face_at};
ghost use Rattle.dual_pair.specs.Polytopes.{PolytopeState};
ghost use Rattle.dual_pair.specs.Faces.{on_facets, AreFacesOf};
ghost use Rattle.dual_pair.specs.Interiors.{set_in};
ghost use Rattle.batyrev.specs.Levels.{IsAt};

use face_poset::FaceTable;

/// Which faces of a table are meant.
#[derive(Clone, Copy)]
pub(crate) enum Level {
    /// Those of a rank.
    Rank(u32),
    /// Those of corank 1.
    Facet,
    /// Those of corank 2.
    Ridge,
}

/// Whether a face has corank 1: no face of the table is between it and the whole, which is the last one.
fn is_facet(table: &FaceTable, face: u32) -> bool
    requires { face < length table.now.faces }
    ensures { (p : PolytopeState) → AreFacesOf p table.now
        → IsTrue result ↔ IsCorank (on_facets p) (set_in p (face_at table.now.faces face)) 1 }
{
    let whole = table.len() - 1;
    if face == whole {
        return false;
    }
    for other in face + 1..whole {
        if table.below(face, other) {
            return false;
        }
    }
    true
}

/// Whether a face has corank 2: some faces are between it and the whole, and all of them have corank 1.
fn is_ridge(table: &FaceTable, face: u32) -> bool
    requires { face < length table.now.faces }
    ensures { (p : PolytopeState) → AreFacesOf p table.now
        → IsTrue result ↔ IsCorank (on_facets p) (set_in p (face_at table.now.faces face)) 2 }
{
    let whole = table.len() - 1;
    let mut some = false;
    for other in face + 1..whole {
        if table.below(face, other) {
            if !is_facet(table, other) {
                return false;
            }
            some = true;
        }
    }
    some
}

/// Whether a face is one of those that are meant.
pub(crate) fn is_at(table: &FaceTable, face: u32, level: Level) -> bool
    requires { face < length table.now.faces }
    ensures { (p : PolytopeState) → AreFacesOf p table.now → IsTrue result ↔ IsAt p level (face_at table.now.faces face) }
{
    match level {
        Level::Rank(rank) => table.rank(face) == rank,
        Level::Facet => is_facet(table, face),
        Level::Ridge => is_ridge(table, face),
    }
}
