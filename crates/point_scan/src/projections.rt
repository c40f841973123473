//! What the facets imply for the first coordinates: bounds of the polytope's projections.

ghost use Rattle.std.specs.Prelude.{◌≡◌, ℕ, ◌<◌, ◌≤◌, length, IfOk, IfSome};
ghost use Rattle.std.specs.List.{All};
ghost use Rattle.lattice_theory.specs.Facet.{AreFacetsInAnyOrder};
ghost use Rattle.lattice_core.specs.Dimensions.{dimension_of};
ghost use Rattle.lattice_core.specs.PointLists.{AreSolidPoints};
ghost use Rattle.lattice_core.specs.declared.limits.TheConstants.{MOST_COORDINATES};
ghost use Rattle.point_scan.specs.ProjectionSteps.{IsBound};

use crate::bounds::{Bound, bound_at};
use crate::eliminations::eliminated;
use bit_rows::BitRow;
use lattice_core::{Functional, NoMemory, Point};
use std::alloc::Global;

/// The most bounds that are kept.
const MOST_BOUNDS: usize = 256;

/// Whether two bounds of the first `k` + 1 coordinates, and no third one, vanish at all these vertices.
fn is_ridge(bounds: &[Bound], on: BitRow, k: usize) -> bool {
    let mut holding = 0_u8;
    for bound in bounds {
        if bound.end <= k && on.is_part_of(bound.on) {
            if holding == 2 {
                return false;
            }
            holding += 1;
        }
    }
    holding == 2
}

/// The bound on the first `k` coordinates in which the coordinate `k` falls out of two bounds that meet in a ridge, the first of which rises there
/// and the second falls. It is `None` where they don't, or where numbers don't fit.
fn projected(bounds: &[Bound], vertices: &[Point], k: usize, i: usize, j: usize) -> Option<Bound>
    requires vertices { AreSolidPoints vertices.now }
    requires bounds { All (λ b. IsBound (dimension_of vertices.now) vertices.now b.function) bounds.now }
    requires first { i < length bounds.now }
    requires second { j < length bounds.now }
    requires place { k < dimension_of vertices.now }
    ensures { IfSome result (λ b. IsBound (dimension_of vertices.now) vertices.now b.function) }
{
    let rising = bounds[i].function.normal();
    let falling = bounds[j].function.normal();
    if rising[k] <= 0 || falling[k] >= 0 || bounds[j].end > k {
        return None;
    }
    if !is_ridge(bounds, bounds[i].on.meet(bounds[j].on), k) {
        return None;
    }
    Some(bound_at(&eliminated(rising, falling, k)?, vertices))
}

/// Appends the bound in which the coordinate `k` falls out of the bounds `i` and `j`, if there is one, and room for it.
fn push_projected(
    bounds: &mut Vec<Bound>,
    vertices: &[Point],
    k: usize,
    i: usize,
    j: usize,
) -> Result<(), NoMemory>
    requires vertices { AreSolidPoints vertices.now }
    requires bounds { All (λ b. IsBound (dimension_of vertices.now) vertices.now b.function) bounds.old.items }
    requires first { i < length bounds.old.items }
    requires second { j < length bounds.old.items }
    requires place { k < dimension_of vertices.now }
    ensures bounds { IfOk result (λ _. All (λ b. IsBound (dimension_of vertices.now) vertices.now b.function) bounds.new.items) }
    ensures longer { IfOk result (λ _. length bounds.old.items ≤ length bounds.new.items) }
{
    if bounds.len() >= MOST_BOUNDS {
        return Ok(());
    }
    let Some(bound) = projected(bounds, vertices, k, i, j) else {
        return Ok(());
    };
    bounds.push(bound)?;
    Ok(())
}

/// Appends the bounds in which the coordinate `k` falls out of the bound `i` and one of the first `many`.
fn project_with(
    bounds: &mut Vec<Bound>,
    vertices: &[Point],
    k: usize,
    i: usize,
    many: usize,
) -> Result<(), NoMemory>
    requires vertices { AreSolidPoints vertices.now }
    requires bounds { All (λ b. IsBound (dimension_of vertices.now) vertices.now b.function) bounds.old.items }
    requires first { i < length bounds.old.items }
    requires many { many ≤ length bounds.old.items }
    requires place { k < dimension_of vertices.now }
    ensures bounds { IfOk result (λ _. All (λ b. IsBound (dimension_of vertices.now) vertices.now b.function) bounds.new.items) }
    ensures longer { IfOk result (λ _. length bounds.old.items ≤ length bounds.new.items) }
{
    for j in 0..many {
        push_projected(bounds, vertices, k, i, j)?;
    }
    Ok(())
}

/// Appends the bounds on the first `k` coordinates that those on the first `k` + 1 imply.
fn project(bounds: &mut Vec<Bound>, vertices: &[Point], k: usize) -> Result<(), NoMemory>
    requires vertices { AreSolidPoints vertices.now }
    requires bounds { All (λ b. IsBound (dimension_of vertices.now) vertices.now b.function) bounds.old.items }
    requires place { k < dimension_of vertices.now }
    ensures { IfOk result (λ _. All (λ b. IsBound (dimension_of vertices.now) vertices.now b.function) bounds.new.items) }
{
    let many = bounds.len();
    for i in 0..many {
        if bounds[i].end == k && bounds[i].function.normal()[k] > 0 {
            project_with(bounds, vertices, k, i, many)?;
        }
    }
    Ok(())
}

/// A bound for each facet.
fn facet_bounds(
    alloc: Global,
    vertices: &[Point],
    facets: &[Functional],
) -> Result<Vec<Bound>, NoMemory>
    requires vertices { AreSolidPoints vertices.now }
    requires facets { AreFacetsInAnyOrder (dimension_of vertices.now) vertices.now facets.now }
    ensures { IfOk result (λ bounds. All (λ b. IsBound (dimension_of vertices.now) vertices.now b.function) bounds.items) }
{
    let mut bounds = Vec::new(alloc);
    for facet in facets {
        bounds.push(bound_at(facet.normal(), vertices))?;
    }
    Ok(bounds)
}

/// A bound for each facet, and then bounds on fewer coordinates that these imply, down to two: the box bounds the first one.
pub(crate) fn bounds_of(
    alloc: Global,
    vertices: &[Point],
    facets: &[Functional],
) -> Result<Vec<Bound>, NoMemory>
    requires vertices { AreSolidPoints vertices.now }
    requires facets { AreFacetsInAnyOrder (dimension_of vertices.now) vertices.now facets.now }
    ensures { IfOk result (λ bounds. All (λ b. IsBound (dimension_of vertices.now) vertices.now b.function) bounds.items) }
{
    let mut bounds = facet_bounds(alloc, vertices, facets)?;
    for k in (2..vertices[0].dim()).rev() {
        project(&mut bounds, vertices, k)?;
    }
    Ok(bounds)
}
