//! How many points are in the interior of each face, and of each dual face.
ghost use Rattle.std.specs.Prelude.{◌≡◌, ℕ, ◌*◌, ◌^◌, ◌<◌, ◌≤◌, length, slice_index_or, MatchOption};
ghost use Rattle.std.specs.List.{All};
ghost use Rattle.lattice_core.specs.ValueWidths.{FitsWidth};
ghost use Rattle.lattice_core.specs.declared.limits.TheConstants.{MOST_POINTS};
ghost use Rattle.batyrev_theory.specs.Interior.{zeros_at};
ghost use Rattle.batyrev_theory.specs.Tables.{points_with};
ghost use Rattle.face_closing.specs.declared.limits.TheConstants.{MOST_FACES};
ghost use Rattle.bit_pool.specs.Bits.{words_for};
ghost use Rattle.incidence.specs.Incidences.{HaveValues};
ghost use Rattle.face_poset.specs.Faces.{face_at};
ghost use Rattle.dual_pair.specs.Pairs.{IsPair};
ghost use Rattle.dual_pair.specs.Faces.{AreFacesOf};
ghost use Rattle.dual_pair.specs.Interiors.{side_of, IsInsideCount};
ghost use Rattle.dual_pair.specs.CountSteps.{AreSought, words_on, sought, opened_on};

use crate::{DualPair, Polytope, Side};
use face_closing::MOST_FACES;
use face_poset::FaceTable;
use incidence::{width_for, zeros_into};
use lattice_core::{Functional, Point, Width};

/// How many words tell the set of a face on a side.
fn word_count(table: &FaceTable, side: Side) -> usize
    ensures value { result ≡ words_for (opened_on side table.now) }
    ensures most { result ≤ 64 }
{
    let opened = match side {
        Side::M => table.functions(),
        Side::N => table.members(),
    };
    (opened as usize + 63) / 64
}

/// The face that has these words on a side.
fn face_of(table: &FaceTable, side: Side, words: &[u64]) -> Option<u32>
    ensures small { All (λ w. w < 2 ^ 64) words.now }
    ensures few { length table.now.faces ≤ MOST_FACES }
    ensures face { MatchOption result
        ((k : ℕ) → k < length table.now.faces → words_on side (face_at table.now.faces k) ≡ words.now → ⊥)
        (λ k. (k < length table.now.faces) × (words_on side (face_at table.now.faces k) ≡ words.now)) }
{
    match side {
        Side::M => table.find_functions(words),
        Side::N => table.find(words),
    }
}

/// The face whose set is that of the functions that are 0 at a point.
fn face_with(
    space: &mut [u64],
    table: &FaceTable,
    side: Side,
    p: &Point,
    functions: &[Functional],
    width: Width,
) -> Option<u32>
    requires room { length functions.now ≤ 64 * length space.old }
    requires dimension { All (λ f. length f.normal ≡ length p.now) functions.now }
    requires fits { All (λ f. FitsWidth width f p.now) functions.now }
    requires sets { AreSought (length space.old) (length functions.now) side table.now.faces }
    ensures long { length space.new ≡ length space.old }
    ensures few { length table.now.faces ≤ MOST_FACES }
    ensures face { MatchOption result
        ((k : ℕ) → k < length table.now.faces → sought (length functions.now) side table.now.faces k ≡ zeros_at functions.now p.now → ⊥)
        (λ k. (k < length table.now.faces) × (sought (length functions.now) side table.now.faces k ≡ zeros_at functions.now p.now)) }
{
    zeros_into(space, p, functions, width);
    face_of(table, side, space)
}

/// How many points have the set of each face.
fn counts_with(
    space: &mut [u64],
    table: &FaceTable,
    side: Side,
    points: &[Point],
    functions: &[Functional],
) -> [u16; MOST_FACES]
    requires room { length functions.now ≤ 64 * length space.old }
    requires few { length points.now ≤ MOST_POINTS }
    requires values { HaveValues points.now functions.now }
    requires sets { AreSought (length space.old) (length functions.now) side table.now.faces }
    ensures whole { length result ≡ MOST_FACES }
    ensures counts { (k : ℕ) → k < length table.now.faces
        → slice_index_or result k 0 ≡ points_with functions.now points.now (sought (length functions.now) side table.now.faces k) }
{
    let width = width_for(points, functions);
    let mut counts = [0; MOST_FACES];
    for i in 0..points.len() {
        if let Some(face) = face_with(space, table, side, &points[i], functions, width) {
            counts[face as usize] += 1;
        }
    }
    counts
}

impl DualPair {
    /// The polytope of a side.
    fn polytope(&self, side: Side) -> &Polytope
        ensures value { result.now ≡ side_of self.now side }
        ensures pair { IsPair self.now }
    {
        match side {
            Side::M => self.m(),
            Side::N => self.n(),
        }
    }

    /// How many points are in the interior of each face of the polytope, on side M, or in the interior of each dual face in the dual, on side N: by
    /// the numbers of the faces in the table of this pair. Each point is looked up once. Source: alg-geom/9310003.
    pub fn interior_counts(&self, table: &FaceTable, side: Side) -> [u16; MOST_FACES]
        requires { AreFacesOf self.now.m table.now }
        ensures whole { length result ≡ MOST_FACES }
        ensures counts { (k : ℕ) → k < length table.now.faces
            → IsInsideCount self.now.m side (face_at table.now.faces k) (slice_index_or result k 0) }
    {
        let polytope = self.polytope(side);
        let mut space = [0; 64];
        counts_with(
            &mut space[..word_count(table, side)],
            table,
            side,
            polytope.points(),
            polytope.facets(),
        )
    }

    /// The number of points in the interior of a face, on side M, or in the interior of its dual face, on side N. `interior_counts` tells it of all
    /// faces at once. Source: alg-geom/9310003.
    pub fn interior_count(&self, table: &FaceTable, face: u32, side: Side) -> u64
        requires table { AreFacesOf self.now.m table.now }
        requires face { face < length table.now.faces }
        ensures { IsInsideCount self.now.m side (face_at table.now.faces face) result }
    {
        let counts = self.interior_counts(table, side);
        let faces = &counts[..table.len() as usize];
        u64::from(faces[face as usize])
    }
}

#[cfg(test)]
mod tests;
