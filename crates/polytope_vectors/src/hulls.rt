//! The calls on hulls and on lattice points agree with each other on small lists of points in each dimension.

ghost use Rattle.std.specs.Prelude.{◌≡◌, ◌+◌, ◌≤◌, length, IfOk, OnOk, IfSome};
ghost use Rattle.lattice_theory.specs.Facet.{AreFacetsInAnyOrder};
ghost use Rattle.lattice_core.specs.Dimensions.{dimension_of};
ghost use Rattle.lattice_core.specs.PointLists.{ArePoints, AreSolidPoints};

use crate::scans::{are_points, count_of, scan_of};
use hull::{HullBuilder, facets_of, vertices_of};
use lattice_core::{Fault, Functional, NoMemory, Point, Refusal, ascending_functions};
use point_scan::scan;
use std::alloc::Global;
use std::test::Fail;

/// Adds the point with these entries, as many as `n`.
pub(crate) fn add(points: &mut Vec<Point>, n: usize, entries: &[i64]) -> Result<(), NoMemory> {
    if n <= entries.len() {
        if let Some(point) = Point::new(&entries[..n]) {
            points.push(point)?;
        }
    }
    Ok(())
}

/// Adds the points with the value on one axis and 0 elsewhere, for each of the first axes.
pub(crate) fn add_axes(points: &mut Vec<Point>, n: usize, value: i64) -> Result<(), NoMemory> {
    for axis in 0..n.min(6) {
        let mut entries = [0; 6];
        entries[axis] = value;
        add(points, n, entries.as_slice())?;
    }
    Ok(())
}

/// The standard simplex with the origin inside, its first vertex twice.
fn simplex(alloc: Global, n: usize) -> Result<Vec<Point>, NoMemory> {
    let mut points = Vec::new(alloc);
    add_axes(&mut points, n, 1)?;
    add(&mut points, n, &[-1; 6])?;
    add(&mut points, n, &[0; 6])?;
    add(&mut points, n, &[1, 0, 0, 0, 0, 0])?;
    Ok(points)
}

/// The cross-polytope, with the origin.
fn cross_polytope(alloc: Global, n: usize) -> Result<Vec<Point>, NoMemory> {
    let mut points = Vec::new(alloc);
    add_axes(&mut points, n, 1)?;
    add_axes(&mut points, n, -1)?;
    add(&mut points, n, &[0; 6])?;
    Ok(points)
}

/// The unit vectors, which are flat, the first one twice.
fn flat_points(alloc: Global, n: usize) -> Result<Vec<Point>, NoMemory> {
    let mut points = Vec::new(alloc);
    add_axes(&mut points, n, 1)?;
    add(&mut points, n, &[1, 0, 0, 0, 0, 0])?;
    Ok(points)
}

/// The points with the first `n` entries of the first rows, one more than coordinates.
fn first_rows(alloc: Global, n: usize, rows: &[[i64; 6]; 7]) -> Result<Vec<Point>, NoMemory> {
    let mut points = Vec::new(alloc);
    for row in &rows[..n.min(6) + 1] {
        add(&mut points, n, row.as_slice())?;
    }
    Ok(points)
}

/// The corner of a cube in six dimensions whose entries tell the number's bits.
fn corner(number: u32, side: i64) -> [i64; 6] {
    let mut entries = [0; 6];
    for axis in 0..6_usize {
        if (number >> axis) & 1 == 1 {
            entries[axis] = side;
        }
    }
    entries
}

/// A cube in at most 6 dimensions: first some corners that aren't flat, then all of them.
fn cube(alloc: Global, n: usize, side: i64) -> Result<Vec<Point>, NoMemory> {
    let mut points = Vec::new(alloc);
    add(&mut points, n, &[0; 6])?;
    add_axes(&mut points, n, side)?;
    for number in 0..1_u32 << n.min(6) {
        add(&mut points, n, corner(number, side).as_slice())?;
    }
    Ok(points)
}

fn are_same_functions(f: &[Functional], g: &[Functional]) -> bool {
    f.len() == g.len() && f.iter().zip(g).all(|(f, g)| f.is_same(g))
}

pub(crate) fn are_same_points(p: &[Point], q: &[Point]) -> bool {
    p.len() == q.len() && p.iter().zip(q).all(|(p, q)| p.entries() == q.entries())
}

/// The same functions again.
fn copies(alloc: Global, functions: &[Functional]) -> Result<Vec<Functional>, NoMemory>
    ensures { IfOk result (λ copies. copies.items ≡ functions.now) }
{
    let mut copies = Vec::new(alloc);
    for f in functions {
        copies.push(f.copied())?;
    }
    Ok(copies)
}

/// Whether the builder of these points has the facets that are found for them at once.
fn has_facets(alloc: Global, builder: &HullBuilder, points: &[Point]) -> Result<bool, Fault>
    requires same { builder.now.points ≡ points.now }
    requires points { ArePoints points.now }
{
    let facets = facets_of(alloc, points)?;
    let mut found = copies(alloc, builder.facets())?;
    ascending_functions(&mut found);
    Ok(are_same_functions(&found, &facets))
}

/// The builder that is given the points one by one. It is `None` where its facets are others than those found at once for the points so far.
pub(crate) fn built(
    alloc: Global,
    points: &[Point],
    count: usize,
) -> Result<Option<HullBuilder>, Fault>
    requires points { ArePoints points.now }
    requires count { count ≡ dimension_of points.now + 1 }
    requires enough { count ≤ length points.now }
    ensures { IfOk result (λ built. IfSome built (λ b. b.points ≡ points.now)) }
{
    let mut builder = HullBuilder::start(alloc, &points[..count])?;
    for i in count..points.len() {
        if !has_facets(alloc, &builder, &points[..i])? {
            return Ok(None);
        }
        builder.insert(&points[i])?;
    }
    if !has_facets(alloc, &builder, points)? {
        return Ok(None);
    }
    Ok(Some(builder))
}

/// Whether these facets of the points lead to the vertices, and to as many lattice points as told.
fn lead_to(
    alloc: Global,
    points: &[Point],
    facets: &[Functional],
    vertices: &[Point],
    lattice: usize,
) -> Result<bool, Fault>
    requires points { AreSolidPoints points.now }
    requires facets { AreFacetsInAnyOrder (dimension_of points.now) points.now facets.now }
{
    let found = vertices_of(alloc, points, facets)?;
    let filled = scan(alloc, points, facets)?;
    Ok(are_same_points(&found, vertices) && filled.len() == lattice)
}

/// Whether the builder's facets do so as they stand, and in the opposite order.
fn lead_in_any_order(
    alloc: Global,
    builder: &HullBuilder,
    points: &[Point],
    vertices: &[Point],
    lattice: usize,
) -> Result<bool, Fault>
    requires same { builder.now.points ≡ points.now }
    requires points { AreSolidPoints points.now }
{
    let mut facets = copies(alloc, builder.facets())?;
    facets.reverse();
    Ok(
        lead_to(alloc, points, builder.facets(), vertices, lattice)?
            && lead_to(alloc, points, &facets, vertices, lattice)?,
    )
}

/// Whether a builder that is given the points one by one has the same facets after each, and these lead to the same vertices.
fn grows_to(
    alloc: Global,
    points: &[Point],
    vertices: &[Point],
    lattice: usize,
) -> Result<bool, Fault>
    requires points { AreSolidPoints points.now }
{
    let count = points[0].dim() + 1;
    if points.len() < count {
        return Ok(false);
    }
    match built(alloc, points, count)? {
        Some(builder) => lead_in_any_order(alloc, &builder, points, vertices, lattice),
        None => Ok(false),
    }
}

/// The facets and the vertices.
pub(crate) fn hull_of(
    alloc: Global,
    points: &[Point],
) -> Result<(Vec<Functional>, Vec<Point>), Fault>
    requires { ArePoints points.now }
    ensures { OnOk result (AreSolidPoints points.now) }
{
    let facets = facets_of(alloc, points)?;
    let vertices = vertices_of(alloc, points, &facets)?;
    Ok((facets, vertices))
}

/// Whether the vertices have these facets, and the lattice points of their hull have the same vertices and facets and are as many as told.
fn is_filled(
    alloc: Global,
    vertices: &[Point],
    facets: &[Functional],
    lattice: usize,
) -> Result<bool, Fault> {
    if !are_points(vertices) {
        return Ok(false);
    }
    let found = scan_of(alloc, vertices)?;
    let counted = count_of(alloc, vertices, 1, 16_384)?;
    if !are_points(&found) {
        return Ok(false);
    }
    let (around, corners) = hull_of(alloc, &found)?;
    Ok(
        found.len() == lattice
            && counted == lattice as u64
            && are_same_functions(&facets_of(alloc, vertices)?, facets)
            && are_same_functions(&around, facets)
            && are_same_points(&corners, vertices),
    )
}

/// Whether the points have so many facets, vertices and lattice points, and all calls agree on them.
pub(crate) fn agree(
    alloc: Global,
    points: &[Point],
    counts: (usize, usize, usize),
) -> Result<bool, Fault> {
    if !are_points(points) {
        return Ok(false);
    }
    let (facets, vertices) = hull_of(alloc, points)?;
    Ok(
        facets.len() == counts.0
            && vertices.len() == counts.1
            && grows_to(alloc, points, &vertices, counts.2)?
            && is_filled(alloc, &vertices, &facets, counts.2)?,
    )
}

#[test]
fn agree_on_simplices(rt: HostRuntime) -> Result<(), Fail> {
    for n in 1..7 {
        let points = simplex(rt.alloc(), n)?;
        assert!(rt; agree(rt.alloc(), &points, (n + 1, n + 1, n + 2))?, "{n}");
    }
    Ok(())
}

#[test]
fn agree_on_cross_polytopes(rt: HostRuntime) -> Result<(), Fail> {
    for (n, facets) in [(1, 2), (2, 4), (3, 8), (4, 16), (5, 32), (6, 64)] {
        let points = cross_polytope(rt.alloc(), n)?;
        assert!(rt;
            agree(rt.alloc(), &points, (facets, 2 * n, 2 * n + 1))?,
            "{n}"
        );
    }
    Ok(())
}

#[test]
fn agree_on_cubes(rt: HostRuntime) -> Result<(), Fail> {
    for (n, side, vertices, lattice) in [
        (1, 2, 2, 3),
        (2, 2, 4, 9),
        (3, 2, 8, 27),
        (4, 2, 16, 81),
        (5, 1, 32, 32),
        (6, 1, 64, 64),
    ] {
        let points = cube(rt.alloc(), n, side)?;
        assert!(rt;
            agree(rt.alloc(), &points, (2 * n, vertices, lattice))?,
            "{n}"
        );
    }
    Ok(())
}

/// Whether all calls refuse the points with this flat function.
fn is_refused(alloc: Global, points: &[Point], function: &Functional) -> Result<bool, Fault> {
    if !are_points(points) || points.len() != points[0].dim() + 1 {
        return Ok(false);
    }
    let refusal = Fault::Refused(Refusal::Flat(function.copied()));
    let start = HullBuilder::start(alloc, points).err();
    Ok(
        facets_of(alloc, points).err() == Some(refusal)
            && matches!(start, Some(Fault::Refused(Refusal::Flat(f))) if f.is_same(function)),
    )
}

/// The points of a line.
const ON_LINE: [[i64; 6]; 7] = [
    [1, 1, 1, 1, 1, 1],
    [2, 3, 4, 5, 6, 7],
    [3, 5, 7, 9, 11, 13],
    [5, 9, 13, 17, 21, 25],
    [0, -1, -2, -3, -4, -5],
    [2, 3, 4, 5, 6, 7],
    [4, 7, 10, 13, 16, 19],
];

/// The points of a plane, on a parabola.
const IN_PLANE: [[i64; 6]; 7] = [
    [0, 0, 0, 1, 1, 1],
    [1, 1, 2, 1, 1, 1],
    [2, 4, 6, 1, 1, 1],
    [3, 9, 12, 1, 1, 1],
    [-1, 1, 0, 1, 1, 1],
    [-2, 4, 2, 1, 1, 1],
    [-3, 9, 6, 1, 1, 1],
];

#[test]
fn agree_on_flat_points(rt: HostRuntime) -> Result<(), Fail> {
    for n in 1..7 {
        let points = flat_points(rt.alloc(), n)?;
        let function = Functional::new(&[1; 6][..n], -1).expect(&rt, "at most six entries");
        assert!(rt; is_refused(rt.alloc(), &points, &function)?, "{n}");
    }
    Ok(())
}

/// Whether all calls refuse the first rows with the function of this normal and constant.
fn are_refused(
    alloc: Global,
    n: usize,
    rows: &[[i64; 6]; 7],
    normal: &[i64; 6],
    constant: i128,
) -> Result<bool, Fault>
    requires { n ≤ 6 }
{
    let points = first_rows(alloc, n, rows)?;
    match Functional::new(&normal[..n], constant) {
        Some(function) => is_refused(alloc, &points, &function),
        None => Ok(false),
    }
}

#[test]
fn agree_on_points_of_a_line(rt: HostRuntime) -> Result<(), Fail> {
    for n in 2..7 {
        assert!(rt;
            are_refused(rt.alloc(), n, &ON_LINE, &[-2, 1, 0, 0, 0, 0], 1)?,
            "{n}"
        );
    }
    Ok(())
}

#[test]
fn agree_on_points_of_a_plane(rt: HostRuntime) -> Result<(), Fail> {
    for n in 3..7 {
        assert!(rt;
            are_refused(rt.alloc(), n, &IN_PLANE, &[-1, -1, 1, 0, 0, 0], 0)?,
            "{n}"
        );
    }
    Ok(())
}

#[test]
fn agree_on_one_point(rt: HostRuntime) -> Result<(), Fail> {
    for n in 1..7 {
        assert!(rt;
            are_refused(rt.alloc(), n, &[[1; 6]; 7], &[1, 0, 0, 0, 0, 0], -1)?,
            "{n}"
        );
    }
    Ok(())
}
