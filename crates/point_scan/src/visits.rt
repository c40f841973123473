//! Visiting the lattice points of a dilate, one after the other.

ghost use Rattle.std.specs.Prelude.{◌≡◌, ◌≤◌, length, IfOk, IfErr};
ghost use Rattle.lattice_theory.specs.Facet.{AreFacetsInAnyOrder};
ghost use Rattle.lattice_core.specs.Dimensions.{dimension_of};
ghost use Rattle.lattice_core.specs.PointLists.{AreSolidPoints};
ghost use Rattle.lattice_core.specs.declared.limits.TheConstants.{MOST_COORDINATES};
ghost use Rattle.region_walk.specs.Walks.{IsAtRun, run_points};
ghost use Rattle.point_scan.specs.ScanSteps.{HasSmallRun};
ghost use Rattle.point_scan.specs.Visits.{Visits, VisitsDilate};
ghost use Rattle.point_scan.specs.declared.limits.TheConstants.{MOST_DILATE};

use crate::dilates::dilate_region;
use crate::runs::extended;
use lattice_core::{Functional, NoMemory, Point};
use region_walk::RegionWalk;
use std::alloc::Global;

/// Takes points, one after the other, until it has enough of them.
pub trait Visitor {
    ghost use Rattle.std.specs.Prelude.{◌≡◌, ◌≤◌, ◌^◌, ℕ, ℤ, Bool, List, length};
    ghost use Rattle.lattice_theory.specs.Size.{absolute_sum};

    // The number of coordinates of the points that it takes, which no visit changes.
    ghost dimension: { Self → ℕ };

    // What a visit does: the visitor before it, the point, the answer, the visitor after it.
    ghost visits: { Self → List ℤ → Bool → Self → Type 0 };

    /// Takes the point, whose coordinates' absolute values sum to at most 2^33, and answers whether it wants more.
    fn visit(&mut self, x: &Point) -> bool
        requires dimension { length x.now ≡ dimension self.old }
        requires small { absolute_sum x.now ≤ 2 ^ 33 }
        ensures dimension { dimension self.new ≡ dimension self.old }
        ensures visits { visits self.old x.now result self.new };
}

/// Lets the visitor take the points of the run in order, until it answers `false`, and answers whether it never did.
fn visit_run<V: Visitor>(walk: &RegionWalk, visitor: &mut V) -> bool
    requires run { IsAtRun walk.now }
    requires small { HasSmallRun walk.now }
    requires dimension { V.dimension visitor.old ≡ length walk.now.region.low }
    ensures dimension { V.dimension visitor.new ≡ V.dimension visitor.old }
    ensures visits { Visits V.visits visitor.old (run_points walk.now) result visitor.new }
{
    let mut last = walk.low();
    for _ in 0..walk.count() {
        let point = extended(walk.beginning(), last);
        if !visitor.visit(&point) {
            return false;
        }
        last += 1;
    }
    true
}

/// Lets the visitor take the lattice points of the dilate of the hull of vertices that aren't flat, each once, in lexicographic order, until it
/// answers `false`. The answer is whether it never did. `facets` are all facets of the vertices, in any order. At least one vertex of 1 to 6
/// coordinates, within the size limit; the dilate is at most 7, and the visitor takes points of that dimension, before and after. Without memory
/// it is `NoMemory`, and no point was taken. Source: math/0204356, section 2.
pub fn for_each_dilate<V: Visitor>(
    alloc: Global,
    vertices: &[Point],
    facets: &[Functional],
    dilate: u32,
    visitor: &mut V,
) -> Result<bool, NoMemory>
    requires vertices { AreSolidPoints vertices.now }
    requires facets { AreFacetsInAnyOrder (dimension_of vertices.now) vertices.now facets.now }
    requires dilate { dilate ≤ MOST_DILATE }
    requires dimension { V.dimension visitor.old ≡ dimension_of vertices.now }
    ensures visits { IfOk result (λ all. VisitsDilate V.visits (dimension_of vertices.now) vertices.now dilate visitor.old all visitor.new) }
    ensures dimension { V.dimension visitor.new ≡ V.dimension visitor.old }
    ensures untouched { IfErr result (λ _. visitor.new ≡ visitor.old) }
{
    let region = dilate_region(alloc, vertices, facets, dilate)?;
    let Some(mut walk) = RegionWalk::start(region) else {
        return Ok(true);
    };
    loop {
        if !visit_run(&walk, visitor) {
            return Ok(false);
        }
        if !walk.advance() {
            return Ok(true);
        }
    }
}

#[cfg(test)]
mod tests;
