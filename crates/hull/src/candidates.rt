//! The points that can be vertices, by the facets on which they lie.

ghost use Rattle.std.specs.Prelude.{◌≡◌, ◌↔◌, ℕ, ◌≤◌, length, IfOk, IsTrue};
ghost use Rattle.std.specs.List.{All, Any};
ghost use Rattle.lattice_theory.specs.Vector.{HaveDimension};
ghost use Rattle.bit_rows.specs.Rows.{IsPartOf};
ghost use Rattle.bit_rows.specs.declared.row.TheConstants.{MOST_INDICES};
ghost use Rattle.lattice_core.specs.ValueWidths.{FitsWidth};
ghost use Rattle.hull.specs.steps.Candidates.{IsAbove, IsLone, AreCandidates};

use crate::tight_rows::tight_row;
use bit_rows::BitRow;
use lattice_core::{Functional, NoMemory, Point, Width};
use std::alloc::Global;

/// A point that no other one is above of, so far, and the places of the facets on which it lies.
#[derive(Drop)]
pub(crate) struct Candidate {
    pub(crate) point: Point,
    pub(crate) row: BitRow,
}

impl Candidate {
    /// Whether the candidate is the point, or lies on each facet on which the point lies and on another one. The row is that of the point.
    #[inline]
    fn is_above(&self, row: BitRow, p: &Point) -> bool
        ensures { IsTrue result ↔ IsAbove row p.now self.now }
    {
        if !row.is_part_of(self.row) {
            return false;
        }
        !self.row.is_part_of(row) || self.point.is_same(p)
    }

    /// Whether the other candidate is the same point, or doesn't lie on each facet on which this one lies.
    #[inline]
    fn is_apart_from(&self, other: &Candidate) -> bool
        ensures { IsTrue result ↔ (IsPartOf self.now.row other.now.row → other.now.point ≡ self.now.point) }
    {
        if !self.row.is_part_of(other.row) {
            return true;
        }
        other.point.is_same(&self.point)
    }

    /// Whether no other candidate lies on each facet on which this one lies.
    pub(crate) fn is_lone(&self, candidates: &[Candidate]) -> bool
        ensures { IsTrue result ↔ IsLone candidates.now self.now }
    {
        candidates.iter().all(|other| self.is_apart_from(other))
    }
}

/// Whether some candidate is above the point, whose row this is.
fn is_below(candidates: &[Candidate], row: BitRow, p: &Point) -> bool
    ensures { IsTrue result ↔ Any (IsAbove row p.now) candidates.now }
{
    candidates.iter().any(|c| c.is_above(row, p))
}

/// Some of the points, such that above each point there is one of them. Points of a face that come behind its first vertex are not among them, so
/// of points in lexicographic order these are the vertices.
pub(crate) fn candidates_of(
    alloc: Global,
    points: &[Point],
    facets: &[Functional],
    width: Width,
) -> Result<Vec<Candidate>, NoMemory>
    requires few { length facets.now ≤ MOST_INDICES }
    requires dimension { (n : ℕ) × HaveDimension n points.now × All (λ f. length f.normal ≡ n) facets.now }
    requires fits { All (λ p. All (λ f. FitsWidth width f p) facets.now) points.now }
    ensures { IfOk result (λ cs. AreCandidates facets.now points.now cs.items) }
{
    let mut candidates = Vec::new(alloc);
    for p in points {
        let row = tight_row(facets, p, width);
        if !is_below(&candidates, row, p) {
            candidates.push(Candidate {
                point: p.copied(),
                row,
            })?;
        }
    }
    Ok(candidates)
}
