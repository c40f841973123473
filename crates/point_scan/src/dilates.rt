//! The dilate of a polytope as a region.

ghost use Rattle.std.specs.Prelude.{◌≡◌, ◌^◌, ◌≤◌, [], pos, ◌*ℤ◌, nat_abs, IfOk};
ghost use Rattle.lattice_theory.specs.Facet.{AreFacetsInAnyOrder};
ghost use Rattle.lattice_core.specs.Dimensions.{dimension_of};
ghost use Rattle.lattice_core.specs.PointLists.{AreSolidPoints};
ghost use Rattle.point_scan.specs.ScanSteps.{HoldsDilate};
ghost use Rattle.point_scan.specs.declared.limits.TheConstants.{MOST_DILATE};

use crate::corners::corners_of;
use crate::projections::bounds_of;
use lattice_core::{Functional, NoMemory, Point};
use region_walk::Region;
use std::alloc::Global;

/// The function with its constant taken `dilate` times.
fn dilated(f: &Functional, dilate: u32) -> Functional
    requires constant { nat_abs f.now.constant ≤ 2 ^ 100 }
    requires dilate { dilate ≤ MOST_DILATE }
    ensures normal { result.normal ≡ f.now.normal }
    ensures constant { result.constant ≡ pos dilate *ℤ f.now.constant }
{
    match Functional::new(f.normal(), i128::from(dilate) * f.constant()) {
        Some(function) => function,
        None => unreachable!(),
    }
}

/// The box of the dilate.
fn box_region(alloc: Global, vertices: &[Point], dilate: u32) -> Result<Region, NoMemory>
    requires vertices { AreSolidPoints vertices.now }
    requires dilate { dilate ≤ MOST_DILATE }
    ensures { IfOk result (HoldsDilate (dimension_of vertices.now) vertices.now dilate []) }
{
    let corners = corners_of(vertices, dilate);
    let region = Region::new(alloc, corners.low, corners.high)?;
    Ok(region)
}

/// The points of the box at which the facets are nonnegative.
fn facet_region(
    alloc: Global,
    vertices: &[Point],
    facets: &[Functional],
    dilate: u32,
) -> Result<Region, NoMemory>
    requires vertices { AreSolidPoints vertices.now }
    requires facets { AreFacetsInAnyOrder (dimension_of vertices.now) vertices.now facets.now }
    requires dilate { dilate ≤ MOST_DILATE }
    ensures { IfOk result (HoldsDilate (dimension_of vertices.now) vertices.now dilate facets.now) }
{
    let mut region = box_region(alloc, vertices, dilate)?;
    for facet in facets {
        region.add(dilated(facet, dilate))?;
    }
    Ok(region)
}

/// The lattice points of the dilate, with the bounds of its projections.
pub(crate) fn dilate_region(
    alloc: Global,
    vertices: &[Point],
    facets: &[Functional],
    dilate: u32,
) -> Result<Region, NoMemory>
    requires vertices { AreSolidPoints vertices.now }
    requires facets { AreFacetsInAnyOrder (dimension_of vertices.now) vertices.now facets.now }
    requires dilate { dilate ≤ MOST_DILATE }
    ensures { IfOk result (HoldsDilate (dimension_of vertices.now) vertices.now dilate facets.now) }
{
    let mut region = facet_region(alloc, vertices, facets, dilate)?;
    let bounds = bounds_of(alloc, vertices, facets)?;
    for i in facets.len()..bounds.len() {
        region.add(dilated(&bounds[i].function, dilate))?;
    }
    Ok(region)
}
