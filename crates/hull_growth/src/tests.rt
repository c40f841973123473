//! A hull on the line that grows by a point.

ghost use Rattle.std.specs.Prelude.{◌≡◌, ◌≤◌, [], ◌∷◌, nat_abs, pos, IfOk};
ghost use Rattle.lattice_theory.specs.Examples.{segment};
ghost use Rattle.lattice_theory.proofs.SegmentFacets.{lower, upper};

use crate::{Beyond, Growth, first_beyond};
use lattice_core::{Functional, NoMemory, Point, Width};
use std::alloc::Global;
use std::test::Fail;

/// The point of the line with this entry.
fn on_line(x: i64) -> Point
    ensures { result ≡ x ∷ [] }
{
    match Point::new(&[x]) {
        Some(point) => point,
        None => unreachable!(),
    }
}

/// The function `a x + c`.
fn function(a: i64, c: i128) -> Functional
    ensures normal { result.normal ≡ a ∷ [] }
    ensures constant { result.constant ≡ c }
{
    match Functional::new(&[a], c) {
        Some(function) => function,
        None => unreachable!(),
    }
}

/// The ends of the segment from -2 to 5.
fn ends(alloc: Global) -> Result<Vec<Point>, NoMemory>
    ensures { IfOk result (λ ends. ends.items ≡ segment) }
{
    let mut ends = Vec::new(alloc);
    ends.push(on_line(-2))?;
    ends.push(on_line(5))?;
    Ok(ends)
}

/// Its facets.
fn facets(alloc: Global) -> Result<Vec<Functional>, NoMemory>
    ensures { IfOk result (λ facets. facets.items ≡ lower ∷ upper ∷ []) }
{
    let mut facets = Vec::new(alloc);
    facets.push(function(1, 2))?;
    facets.push(function(-1, 5))?;
    Ok(facets)
}

/// Its hull.
fn segment_growth(alloc: Global) -> Result<Growth, NoMemory>
    ensures corners { IfOk result (λ g. g.corners ≡ segment) }
    ensures facets { IfOk result (λ g. g.facets ≡ lower ∷ upper ∷ []) }
{
    let ends = ends(alloc)?;
    let facets = facets(alloc)?;
    Growth::new(alloc, ends, facets)
}

/// Two points to the right of it.
fn right_points(alloc: Global) -> Result<Vec<Point>, NoMemory>
    ensures { IfOk result (λ points. points.items ≡ (pos 7 ∷ []) ∷ (pos 9 ∷ []) ∷ []) }
{
    let mut points = Vec::new(alloc);
    points.push(on_line(7))?;
    points.push(on_line(9))?;
    Ok(points)
}

/// The first side beyond which one of the points lies, and the farther of them.
fn beyond(alloc: Global) -> Result<Option<Beyond>, NoMemory> {
    let facets = facets(alloc)?;
    let points = right_points(alloc)?;
    Ok(first_beyond(&facets, &points, 0, Width::Narrow))
}

/// The constants of the facets of the segment and a point.
fn grown(alloc: Global, x: i64) -> Result<(i128, i128), NoMemory>
    requires { nat_abs x ≤ 1000 }
{
    let mut growth = segment_growth(alloc)?;
    growth.grow(&on_line(x))?;
    let facets = growth.facets();
    if facets.len() == 2 {
        return Ok((facets[0].constant(), facets[1].constant()));
    }
    Ok((0, 0))
}

#[test]
fn grows_by_a_point_outside(rt: HostRuntime) -> Result<(), Fail> {
    assert_eq!(rt; grown(rt.alloc(), 9)?, (2, 9));
    assert_eq!(rt; grown(rt.alloc(), -4)?, (5, 4));
    Ok(())
}

#[test]
fn keeps_its_facets_with_a_point_inside(rt: HostRuntime) -> Result<(), Fail> {
    assert_eq!(rt; grown(rt.alloc(), 5)?, (2, 5));
    Ok(())
}

#[test]
fn finds_the_farthest_point_beyond_the_first_facet(rt: HostRuntime) -> Result<(), Fail> {
    let found = beyond(rt.alloc())?;
    assert_eq!(rt; found, Some(Beyond { facet: 1, point: 1 }));
    Ok(())
}
