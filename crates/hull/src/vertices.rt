//! The vertices of points.

ghost use Rattle.std.specs.Prelude.{◌≡◌, ◌↔◌, ◌^◌, ◌<◌, ◌≤◌, length, nat_abs, IfOk, IfErr, IsTrue};
ghost use Rattle.std.specs.List.{All};
ghost use Rattle.lattice_theory.specs.Vector.{HaveDimension};
ghost use Rattle.lattice_theory.specs.Size.{absolute_sum};
ghost use Rattle.lattice_theory.specs.Hull.{AreVertices};
ghost use Rattle.lattice_theory.specs.Facet.{AreFacetsInAnyOrder};
ghost use Rattle.lattice_core.specs.declared.limits.TheConstants.{MOST_VERTICES};
ghost use Rattle.lattice_core.specs.Dimensions.{dimension_of};
ghost use Rattle.lattice_core.specs.PointLists.{AreSolidPoints};
ghost use Rattle.lattice_core.specs.Stops.{Stops};
ghost use Rattle.hull.specs.Faults.{IsVerticesRefusal};
ghost use Rattle.hull.specs.steps.Tight.{LiesWith, LiesAlone, HasVertices};
ghost use Rattle.bit_rows.specs.declared.row.TheConstants.{MOST_INDICES};

use crate::candidates::candidates_of;
use bit_rows::MOST_INDICES;
use lattice_core::{
    Fault, Functional, LimitName, MOST_VERTICES, NoMemory, Point, Refusal, ascending_points,
    size_of, width_of,
};
use std::alloc::Global;

/// Whether p lies on every facet on which v lies.
fn lies_with(facets: &[Functional], v: &Point, p: &Point) -> bool
    requires same { length v.now ≡ length p.now }
    requires dimension { All (λ f. length f.normal ≡ length v.now) facets.now }
    requires constants { All (λ f. nat_abs f.constant ≤ 2 ^ 100) facets.now }
    requires small_v { absolute_sum v.now ≤ 2 ^ 30 }
    requires small_p { absolute_sum p.now ≤ 2 ^ 30 }
    ensures { IsTrue result ↔ LiesWith facets.now v.now p.now }
{
    facets.iter().all(|f| f.at(v) != 0 || f.at(p) == 0)
}

/// Whether no other point lies on every facet on which v lies.
fn is_vertex(points: &[Point], facets: &[Functional], v: &Point) -> bool
    requires dimension { HaveDimension (length v.now) points.now }
    requires small { All (λ p. absolute_sum p ≤ 2 ^ 30) points.now }
    requires same { All (λ f. length f.normal ≡ length v.now) facets.now }
    requires constants { All (λ f. nat_abs f.constant ≤ 2 ^ 100) facets.now }
    requires small_v { absolute_sum v.now ≤ 2 ^ 30 }
    ensures { IsTrue result ↔ LiesAlone points.now facets.now v.now }
{
    points
        .iter()
        .all(|p| p.is_same(v) || !lies_with(facets, v, p))
}

/// The vertices among points that aren't flat, each at least once. `facets` are the points' facets, in any order.
fn vertices_by_values(
    alloc: Global,
    points: &[Point],
    facets: &[Functional],
) -> Result<Vec<Point>, NoMemory>
    requires points { AreSolidPoints points.now }
    requires facets { AreFacetsInAnyOrder (dimension_of points.now) points.now facets.now }
    ensures { IfOk result (λ vs. HasVertices (dimension_of points.now) points.now points.now vs.items) }
{
    let mut vertices = Vec::new(alloc);
    for v in points {
        if is_vertex(points, facets, v) {
            vertices.push(v.copied())?;
        }
    }
    Ok(vertices)
}

/// The same where there are at most 128 facets.
fn vertices_by_rows(
    alloc: Global,
    points: &[Point],
    facets: &[Functional],
) -> Result<Vec<Point>, NoMemory>
    requires points { AreSolidPoints points.now }
    requires facets { AreFacetsInAnyOrder (dimension_of points.now) points.now facets.now }
    requires few { length facets.now ≤ MOST_INDICES }
    ensures { IfOk result (λ vs. HasVertices (dimension_of points.now) points.now points.now vs.items) }
{
    let n = points[0].dim();
    let width = width_of(n, size_of(n, points));
    let candidates = candidates_of(alloc, points, facets, width)?;
    let mut vertices = Vec::new(alloc);
    for c in &candidates {
        if c.is_lone(&candidates) {
            vertices.push(c.point.copied())?;
        }
    }
    Ok(vertices)
}

/// The same for any number of facets.
fn vertices_found(
    alloc: Global,
    points: &[Point],
    facets: &[Functional],
) -> Result<Vec<Point>, NoMemory>
    requires points { AreSolidPoints points.now }
    requires facets { AreFacetsInAnyOrder (dimension_of points.now) points.now facets.now }
    ensures { IfOk result (λ vs. HasVertices (dimension_of points.now) points.now points.now vs.items) }
{
    if facets.len() > MOST_INDICES {
        return vertices_by_values(alloc, points, facets);
    }
    vertices_by_rows(alloc, points, facets)
}

/// All vertices of points that aren't flat, each once, in lexicographic order. `facets` are the points' facets, in any order.
pub(crate) fn all_vertices(
    alloc: Global,
    points: &[Point],
    facets: &[Functional],
) -> Result<Vec<Point>, NoMemory>
    requires points { AreSolidPoints points.now }
    requires facets { AreFacetsInAnyOrder (dimension_of points.now) points.now facets.now }
    ensures { IfOk result (λ vs. AreVertices (dimension_of points.now) points.now vs.items) }
{
    let mut vertices = vertices_found(alloc, points, facets)?;
    ascending_points(&mut vertices);
    Ok(vertices)
}

/// All vertices of points that aren't flat, each once, in lexicographic order. `facets` are all facets of the points, in any order; the points
/// have 1 to 6 coordinates, are within the size limit of their dimension, and may repeat. More than 128 vertices are refused with their number,
/// and nothing else is refused; without memory for the answer it is `NoMemory`. Source: math/0204356, section 2.
pub fn vertices_of(
    alloc: Global,
    points: &[Point],
    facets: &[Functional],
) -> Result<Vec<Point>, Fault>
    requires points { AreSolidPoints points.now }
    requires facets { AreFacetsInAnyOrder (dimension_of points.now) points.now facets.now }
    ensures vertices { IfOk result (λ vs. AreVertices (dimension_of points.now) points.now vs.items) }
    ensures few { IfOk result (λ vs. length vs.items ≤ MOST_VERTICES) }
    ensures refused { IfErr result (Stops (IsVerticesRefusal (dimension_of points.now) points.now)) }
{
    let vertices = all_vertices(alloc, points, facets)?;
    if vertices.len() > MOST_VERTICES {
        return Err(Fault::Refused(Refusal::Limit(LimitName::Vertices, vertices.len() as u128)));
    }
    Ok(vertices)
}
