//! The facets of points.

ghost use Rattle.std.specs.Prelude.{◌≡◌, ◌≤◌, length, Err, IfOk, OnOk, IfErr};
ghost use Rattle.std.specs.List.{All};
ghost use Rattle.lattice_theory.specs.Size.{size};
ghost use Rattle.lattice_theory.specs.Facet.{AreFacets};
ghost use Rattle.lattice_core.specs.declared.faults.Fault.TheVariants as Fault;
ghost use Rattle.lattice_core.specs.declared.limits.TheConstants.{MOST_FACETS};
ghost use Rattle.lattice_core.specs.Dimensions.{dimension_of};
ghost use Rattle.lattice_core.specs.PointLists.{ArePoints, AreSizedPoints, AreSolidPoints};
ghost use Rattle.lattice_core.specs.Stops.{Stops};
ghost use Rattle.lattice_core.specs.ValueWidths.{IsWithin};
ghost use Rattle.hull_growth.specs.Grown.{HasFacets};
ghost use Rattle.hull.specs.steps.Growing.{IsWholeHull};
ghost use Rattle.hull.specs.steps.Simplex.{IsSimplex};
ghost use Rattle.hull.specs.steps.Widths.{ServesPoints};
ghost use Rattle.hull.specs.Faults.{IsSizeRefusal, IsStartRefusal, IsFacetsRefusal};

use crate::flat::flat_function;
use crate::outer::outer_points;
use crate::simplex::first_simplex;
use crate::spread::are_spread_solid;
use hull_growth::{Growth, first_beyond};
use lattice_core::{
    Fault, Functional, LimitName, MOST_FACETS, NoMemory, Point, Refusal, Width,
    ascending_functions, size_limit, size_of, width_of,
};
use std::alloc::Global;

/// The hull of points within the size limit, grown from a simplex of some of them: for the first facet beyond which there are points by the
/// farthest of these. A facet beyond which there is none is done.
fn grown_hull(
    alloc: Global,
    corners: Vec<Point>,
    functions: Vec<Functional>,
    points: &[Point],
    width: Width,
) -> Result<(Vec<Point>, Vec<Functional>), NoMemory>
    requires points { AreSizedPoints points.now }
    requires simplex { IsSimplex points.now corners.items }
    requires facets { HasFacets (dimension_of corners.items) corners.items functions.items }
    requires width { ServesPoints points.now width }
    ensures { IfOk result (λ hull. IsWholeHull points.now hull.0.items hull.1.items) }
{
    let mut growth = Growth::new(alloc, corners, functions)?;
    let mut done = 0;
    while let Some(beyond) = first_beyond(growth.facets(), points, done, width) {
        growth.grow(&points[beyond.point])?;
        done = beyond.facet;
    }
    let (corners, mut facets) = growth.into_parts();
    ascending_functions(&mut facets);
    Ok((corners, facets))
}

/// The hull of points within the size limit that aren't flat: some of the points, its corners, and all facets, each once, ordered by normal and
/// then by constant. Points in the first simplex aren't looked at again.
pub(crate) fn whole_hull(
    alloc: Global,
    points: &[Point],
    width: Width,
) -> Result<(Vec<Point>, Vec<Functional>), NoMemory>
    requires points { AreSolidPoints points.now }
    requires width { ServesPoints points.now width }
    ensures { IfOk result (λ hull. IsWholeHull points.now hull.0.items hull.1.items) }
{
    let (corners, functions) = first_simplex(alloc, points, width)?;
    let outer = outer_points(alloc, &corners, &functions, points, width)?;
    grown_hull(alloc, corners, functions, &outer, width)
}

/// Refuses points that are too large, and tells the width that serves the others.
pub(crate) fn sized(points: &[Point]) -> Result<Width, Refusal>
    requires points { ArePoints points.now }
    ensures sized { OnOk result (AreSizedPoints points.now) }
    ensures width { IfOk result (ServesPoints points.now) }
    ensures refused { IfErr result (IsSizeRefusal (dimension_of points.now) points.now) }
{
    let n = points[0].dim();
    let size = size_of(n, points);
    if size > size_limit(n) as u128 {
        return Err(Refusal::Limit(LimitName::Size, size));
    }
    Ok(width_of(n, size))
}

/// Refuses points that are too large, and then flat ones, and tells the width that serves the others.
pub(crate) fn solid(alloc: Global, points: &[Point]) -> Result<Width, Refusal>
    requires points { ArePoints points.now }
    ensures solid { OnOk result (AreSolidPoints points.now) }
    ensures width { IfOk result (ServesPoints points.now) }
    ensures refused { IfErr result (IsStartRefusal (dimension_of points.now) points.now) }
{
    let width = sized(points)?;
    if are_spread_solid(alloc, points) {
        return Ok(width);
    }
    match flat_function(points) {
        Some(function) => Err(Refusal::Flat(function)),
        None => Ok(width),
    }
}

/// All facets of points with 1 to 6 coordinates, however many, each once, ordered by normal and then by constant. There is at least one point;
/// points may repeat. Refused are points whose size is above the limit of their dimension (the size is told), and then flat points (with their
/// flat function); neither needs memory. Without memory for the facets it is `NoMemory`. Source: math/0204356, section 2.
pub fn all_facets(alloc: Global, points: &[Point]) -> Result<Vec<Functional>, Fault>
    requires points { ArePoints points.now }
    ensures facets { IfOk result (λ fs. AreFacets (dimension_of points.now) points.now fs.items) }
    ensures solid { OnOk result (AreSolidPoints points.now) }
    ensures bounded { IfOk result (λ fs. All (IsWithin (dimension_of points.now) (size (dimension_of points.now) points.now)) fs.items) }
    ensures refused { IfErr result (Stops (IsStartRefusal (dimension_of points.now) points.now)) }
    ensures no_memory { result ≡ Err Fault.NoMemory → AreSolidPoints points.now }
{
    let width = solid(alloc, points)?;
    let (_corners, facets) = whole_hull(alloc, points, width)?;
    Ok(facets)
}

/// All facets of points with 1 to 6 coordinates, each once, ordered by normal and then by constant. There is at least one point; points may
/// repeat. Refused are, in this order, points whose size is above the limit of their dimension (the size is told), flat points (with their flat
/// function), and points with more than 128 facets (their number is told). Without memory for the facets it is `NoMemory`; the first two
/// refusals need none. For the points' size S, a facet's normal has entries of at most (2S)^(n-1), and its constant is at most (2S)^(n-1) S.
/// Source: math/0204356, section 2.
pub fn facets_of(alloc: Global, points: &[Point]) -> Result<Vec<Functional>, Fault>
    requires points { ArePoints points.now }
    ensures facets { IfOk result (λ fs. AreFacets (dimension_of points.now) points.now fs.items) }
    ensures solid { OnOk result (AreSolidPoints points.now) }
    ensures few { IfOk result (λ fs. length fs.items ≤ MOST_FACETS) }
    ensures bounded { IfOk result (λ fs. All (IsWithin (dimension_of points.now) (size (dimension_of points.now) points.now)) fs.items) }
    ensures refused { IfErr result (Stops (IsFacetsRefusal (dimension_of points.now) points.now)) }
    ensures no_memory { result ≡ Err Fault.NoMemory → AreSolidPoints points.now }
{
    let facets = all_facets(alloc, points)?;
    if facets.len() > MOST_FACETS {
        return Err(Fault::Refused(Refusal::Limit(LimitName::Facets, facets.len() as u128)));
    }
    Ok(facets)
}
