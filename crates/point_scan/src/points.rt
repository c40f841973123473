//! The lattice points of a polytope and of its dilates.

ghost use Rattle.std.specs.Prelude.{◌≡◌, ◌≤◌, ◌+◌, ◌++◌, ◌+ℤ◌, ◌-ℤ◌, ◌≤ℤ◌, pos, length, IfOk, IfErr};
ghost use Rattle.lattice_theory.specs.Facet.{AreFacetsInAnyOrder};
ghost use Rattle.lattice_theory.specs.Grid.{natural_part};
ghost use Rattle.lattice_theory.specs.Points.{AreLatticePoints};
ghost use Rattle.lattice_core.specs.declared.limits.TheConstants.{MOST_COORDINATES, MOST_POINTS};
ghost use Rattle.lattice_core.specs.Dimensions.{dimension_of};
ghost use Rattle.lattice_core.specs.PointLists.{AreSolidPoints};
ghost use Rattle.lattice_core.specs.Stops.{Stops};
ghost use Rattle.region_walk.specs.Walks.{run_from};
ghost use Rattle.point_scan.specs.Dilates.{CountsDilatePoints};
ghost use Rattle.point_scan.specs.Faults.{IsScanRefusal};
ghost use Rattle.point_scan.specs.declared.limits.TheConstants.{MOST_DILATE, MOST_COUNT};

use crate::dilates::dilate_region;
use crate::runs::push_run;
use lattice_core::{Fault, Functional, LimitName, MOST_POINTS, NoMemory, Point, Refusal};
use region_walk::RegionWalk;
use std::alloc::Global;

/// All lattice points of the hull of vertices that aren't flat, each once, in lexicographic order. `facets` are all facets of the vertices, in
/// any order. At least one vertex of 1 to 6 coordinates, within the size limit. More than 16,384 lattice points are refused with the number
/// 16,385, and nothing else is refused; without memory it is `NoMemory`. Source: math/0204356, section 2.
pub fn scan(alloc: Global, vertices: &[Point], facets: &[Functional]) -> Result<Vec<Point>, Fault>
    requires vertices { AreSolidPoints vertices.now }
    requires facets { AreFacetsInAnyOrder (dimension_of vertices.now) vertices.now facets.now }
    ensures points { IfOk result (λ points. AreLatticePoints (dimension_of vertices.now) vertices.now points.items) }
    ensures few { IfOk result (λ points. length points.items ≤ MOST_POINTS) }
    ensures refused { IfErr result (Stops (IsScanRefusal (dimension_of vertices.now) vertices.now)) }
{
    let region = dilate_region(alloc, vertices, facets, 1)?;
    let mut points = Vec::new(alloc);
    let Some(mut walk) = RegionWalk::start(region) else {
        return Ok(points);
    };
    loop {
        if walk.count() > (MOST_POINTS - points.len()) as u64 {
            let told = MOST_POINTS as u128 + 1;
            return Err(Fault::Refused(Refusal::Limit(LimitName::Points, told)));
        }
        push_run(&walk, &mut points)?;
        if !walk.advance() {
            return Ok(points);
        }
    }
}

/// The number of lattice points of the dilate of the hull of vertices that aren't flat, or `limit` + 1 where there are more than `limit`.
/// These are the integer points at which each facet, its constant taken `dilate` times, is nonnegative; for the dilate 0 that is the origin
/// alone. `facets` are all facets of the vertices, in any order. At least one vertex of 1 to 6 coordinates, within the size limit; the dilate is
/// at most 7, and the limit at most 2^40. Without memory it is `NoMemory`. Source: math/0204356, section 2.
pub fn count_to(
    alloc: Global,
    vertices: &[Point],
    facets: &[Functional],
    dilate: u32,
    limit: u64,
) -> Result<u64, NoMemory>
    requires vertices { AreSolidPoints vertices.now }
    requires facets { AreFacetsInAnyOrder (dimension_of vertices.now) vertices.now facets.now }
    requires dilate { dilate ≤ MOST_DILATE }
    requires limit { limit ≤ MOST_COUNT }
    ensures { IfOk result (CountsDilatePoints (dimension_of vertices.now) vertices.now dilate limit) }
{
    let region = dilate_region(alloc, vertices, facets, dilate)?;
    let Some(mut walk) = RegionWalk::start(region) else {
        return Ok(0);
    };
    let mut count = 0;
    loop {
        count += walk.count();
        if count > limit {
            return Ok(limit + 1);
        }
        if !walk.advance() {
            return Ok(count);
        }
    }
}

#[cfg(test)]
pub(crate) mod tests;
