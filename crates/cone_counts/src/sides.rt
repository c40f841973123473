//! The numbers of one side.
ghost use Rattle.std.specs.Prelude.{◌≡◌, ◌↔◌, ◌+◌, ◌*◌, ◌<◌, ◌≤◌, length, IsTrue, IfOk};
ghost use Rattle.face_theory.specs.Pairings.{paired};
ghost use Rattle.dual_pair.specs.Pairs.{IsPair};
ghost use Rattle.cayley_theory.specs.Bases.{lifted_all, HaveParts};
ghost use Rattle.face_poset.specs.Faces.{IsTableOf};
ghost use Rattle.base_counts.specs.declared.counts.TheConstants.{DEGREES};
ghost use Rattle.cayley.specs.Limits.{IsWithinScans};
ghost use Rattle.cone_counts.specs.FaceCounts.{IsNefCone};
ghost use Rattle.cone_counts.specs.CountSteps.{polytope_of, vectors_on, AreSideCounts, HasLarge};

use crate::free::part_masks;
use crate::limits::MOST_PAIRS;
use crate::sets::{face_sets, words_for};
use crate::sums::sum_all;
use base_counts::DEGREES;
use cayley::Cone;
use dilate_counts::{DilateRoom, count_dilate};
use dual_pair::{DualPair, Polytope, Side};
use face_poset::FaceTable;
use lattice_core::{Functional, NoMemory};
use std::alloc::Global;

/// The polytope whose points are counted on a side.
fn polytope_on(pair: &DualPair, side: Side) -> &Polytope
    ensures value { result.now ≡ polytope_of side pair.now }
    ensures pair { IsPair pair.now }
{
    match side {
        Side::M => pair.m(),
        Side::N => pair.n(),
    }
}

/// The vectors with which points pair on a side.
fn vectors_on(cone: &Cone, side: Side) -> &[Functional]
    ensures value { lifted_all cone.now.parts result.now ≡ vectors_on side cone.now }
    ensures parts { HaveParts cone.now.dim cone.now.parts result.now }
{
    match side {
        Side::M => cone.function_vectors(),
        Side::N => cone.member_vectors(),
    }
}

/// The numbers of vectors on a side: face by face, and last those of the whole cone, each by its degree. In the room are the points of that side.
pub(crate) fn side_counts(
    alloc: Global,
    room: &mut DilateRoom,
    cone: &Cone,
    pair: &DualPair,
    table: &FaceTable,
    side: Side,
) -> Result<Vec<u32>, NoMemory>
    requires cone { IsNefCone pair.now cone.now }
    requires table { IsTableOf (paired cone.now.members cone.now.functions) table.now }
    requires within { IsWithinScans pair.now cone.now.parts }
    ensures { IfOk result (λ counts. AreSideCounts cone.now table.now.faces side counts.items) }
{
    let polytope = polytope_on(pair, side);
    let vectors = vectors_on(cone, side);
    let parts = cone.parts();
    let dilate = (cone.dim() + parts - 1) as u32;
    let words = words_for(table, side, vectors.len());
    let sets = face_sets(alloc, table, side, words)?;
    let mut counts = count_dilate(
        alloc,
        room,
        polytope.vertices(),
        polytope.facets(),
        dilate,
        parts,
        vectors,
        &sets,
    )?;
    let masks = part_masks(alloc, vectors, parts, words)?;
    sum_all(&mut counts, &sets, &masks);
    Ok(counts)
}

/// Whether one of the first numbers of a set is above the limit.
pub(crate) fn is_large(counts: &[u32], set: usize, degrees: usize) -> bool
    requires room { set * DEGREES + DEGREES ≤ length counts.now }
    requires few { degrees ≤ DEGREES }
    ensures { IsTrue result ↔ HasLarge set degrees counts.now }
{
    let first = set * DEGREES;
    for degree in 0..degrees {
        if counts[first + degree] > MOST_PAIRS {
            return true;
        }
    }
    false
}
