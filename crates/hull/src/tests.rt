//! Hulls of small lists of points.

ghost use Rattle.std.specs.Prelude.{◌≡◌, ◌<◌, ◌≤◌, length, IfOk};
ghost use Rattle.lattice_theory.specs.Vector.{HaveDimension};
ghost use Rattle.lattice_core.specs.Dimensions.{dimension_of};

use crate::facets::sized;
use crate::{HullBuilder, all_facets, facets_of, flat_function, hull_of, hyperplane, vertices_of};
use lattice_core::{Fault, Functional, LimitName, NoMemory, Point, Refusal};
use std::alloc::Global;
use std::test::Fail;

/// The rows with `n` entries, as points.
fn points_in(alloc: Global, n: usize, rows: &[&[i64]]) -> Result<Vec<Point>, NoMemory>
    ensures one_dimension { IfOk result (λ points. HaveDimension (dimension_of points.items) points.items) }
    ensures dimension { IfOk result (λ points. 0 < length points.items → dimension_of points.items ≡ n) }
{
    let mut points = Vec::new(alloc);
    for row in rows {
        if let Some(point) = Point::new(row) {
            if point.dim() == n {
                points.push(point)?;
            }
        }
    }
    Ok(points)
}

fn are_functions(found: &[Functional], normals: &[&[i64]], constants: &[i128]) -> bool {
    found.len() == normals.len()
        && found
            .iter()
            .zip(normals)
            .all(|(f, normal)| f.normal() == *normal)
        && found
            .iter()
            .zip(constants)
            .all(|(f, constant)| f.constant() == *constant)
}

fn are_points(found: &[Point], want: &[&[i64]]) -> bool {
    found.len() == want.len() && found.iter().zip(want).all(|(p, x)| p.entries() == *x)
}

/// The facets, and what the search for vertices answers.
fn facets_and_vertices(
    alloc: Global,
    points: &[Point],
) -> Result<(Vec<Functional>, Result<Vec<Point>, Fault>), Fault>
    requires some { 0 < length points.now }
    requires one_dimension { HaveDimension (dimension_of points.now) points.now }
{
    let facets = facets_of(alloc, points)?;
    let vertices = vertices_of(alloc, points, &facets);
    Ok((facets, vertices))
}

fn has_hull(
    alloc: Global,
    n: usize,
    rows: &[&[i64]],
    normals: &[&[i64]],
    constants: &[i128],
    vertices: &[&[i64]],
) -> Result<bool, Fault> {
    let points = points_in(alloc, n, rows)?;
    if points.is_empty() {
        return Ok(false);
    }
    let (facets, found) = facets_and_vertices(alloc, &points)?;
    let hull = hull_of(alloc, &points)?;
    Ok(
        are_functions(&facets, normals, constants)
            && are_functions(&hull.facets, normals, constants)
            && are_functions(&all_facets(alloc, &points)?, normals, constants)
            && are_points(&found?, vertices)
            && are_points(&hull.vertices, vertices),
    )
}

#[test]
fn finds_facets_and_vertices_in_order(rt: HostRuntime) -> Result<(), Fail> {
    assert!(rt;
        has_hull(
            rt.alloc(),
            1,
            &[&[5], &[-2], &[1]],
            &[&[-1], &[1]],
            &[5, 2],
            &[&[-2], &[5]]
        )?
    );
    assert!(rt;
        has_hull(
            rt.alloc(),
            2,
            &[&[-1, -1], &[3, -1], &[-1, 2], &[0, 0]],
            &[&[-3, -4], &[0, 1], &[1, 0]],
            &[5, 1, 1],
            &[&[-1, -1], &[-1, 2], &[3, -1]]
        )?
    );
    Ok(())
}

#[test]
fn finds_a_hull_in_space(rt: HostRuntime) -> Result<(), Fail> {
    assert!(rt;
        has_hull(
            rt.alloc(),
            3,
            &[
                &[1, 1, 0],
                &[0, 0, 0],
                &[1, 0, 0],
                &[0, 1, 0],
                &[0, 0, 1],
                &[0, 0, 0]
            ],
            &[
                &[-1, 0, -1],
                &[0, -1, -1],
                &[0, 0, 1],
                &[0, 1, 0],
                &[1, 0, 0]
            ],
            &[1, 1, 0, 0, 0],
            &[&[0, 0, 0], &[0, 0, 1], &[0, 1, 0], &[1, 0, 0], &[1, 1, 0]]
        )?
    );
    Ok(())
}

#[test]
fn finds_a_simplex_in_dimension_four(rt: HostRuntime) -> Result<(), Fail> {
    assert!(rt;
        has_hull(
            rt.alloc(),
            4,
            &[
                &[-1, -1, -1, -1],
                &[1, 0, 0, 0],
                &[0, 1, 0, 0],
                &[0, 0, 1, 0],
                &[0, 0, 0, 1]
            ],
            &[
                &[-1, -1, -1, -1],
                &[-1, -1, -1, 4],
                &[-1, -1, 4, -1],
                &[-1, 4, -1, -1],
                &[4, -1, -1, -1]
            ],
            &[1, 1, 1, 1, 1],
            &[
                &[-1, -1, -1, -1],
                &[0, 0, 0, 1],
                &[0, 0, 1, 0],
                &[0, 1, 0, 0],
                &[1, 0, 0, 0]
            ]
        )?
    );
    Ok(())
}

/// The numbers of facets and of vertices.
fn counts(alloc: Global, n: usize, rows: &[&[i64]]) -> Result<(usize, usize), Fault> {
    let points = points_in(alloc, n, rows)?;
    if points.is_empty() {
        return Ok((0, 0));
    }
    let (facets, vertices) = facets_and_vertices(alloc, &points)?;
    Ok((facets.len(), vertices?.len()))
}

#[test]
fn counts_cubes_and_cross_polytopes(rt: HostRuntime) -> Result<(), Fail> {
    let cube: [&[i64]; 9] = [
        &[1, 1, 1],
        &[1, 1, -1],
        &[1, -1, 1],
        &[1, -1, -1],
        &[-1, 1, 1],
        &[-1, 1, -1],
        &[-1, -1, 1],
        &[-1, -1, -1],
        &[0, 0, 0],
    ];
    assert_eq!(rt; counts(rt.alloc(), 3, &cube)?, (6, 8));
    let cross_polytope: [&[i64]; 8] = [
        &[1, 0, 0, 0],
        &[-1, 0, 0, 0],
        &[0, 1, 0, 0],
        &[0, -1, 0, 0],
        &[0, 0, 1, 0],
        &[0, 0, -1, 0],
        &[0, 0, 0, 1],
        &[0, 0, 0, -1],
    ];
    assert_eq!(rt; counts(rt.alloc(), 4, &cross_polytope)?, (16, 8));
    Ok(())
}

#[test]
fn counts_a_cube_in_dimension_four(rt: HostRuntime) -> Result<(), Fail> {
    let cube: [&[i64]; 16] = [
        &[0, 0, 0, 0],
        &[0, 0, 0, 1],
        &[0, 0, 1, 0],
        &[0, 0, 1, 1],
        &[0, 1, 0, 0],
        &[0, 1, 0, 1],
        &[0, 1, 1, 0],
        &[0, 1, 1, 1],
        &[1, 0, 0, 0],
        &[1, 0, 0, 1],
        &[1, 0, 1, 0],
        &[1, 0, 1, 1],
        &[1, 1, 0, 0],
        &[1, 1, 0, 1],
        &[1, 1, 1, 0],
        &[1, 1, 1, 1],
    ];
    assert_eq!(rt; counts(rt.alloc(), 4, &cube)?, (8, 16));
    Ok(())
}

#[test]
fn counts_simplices(rt: HostRuntime) -> Result<(), Fail> {
    let simplex: [&[i64]; 7] = [
        &[1, 0, 0, 0, 0],
        &[0, 1, 0, 0, 0],
        &[0, 0, 1, 0, 0],
        &[0, 0, 0, 1, 0],
        &[0, 0, 0, 0, 1],
        &[-1, -1, -1, -1, -1],
        &[0, 0, 0, 0, 1],
    ];
    assert_eq!(rt; counts(rt.alloc(), 5, &simplex)?, (6, 6));
    let long_simplex: [&[i64]; 7] = [
        &[0, 0, 0, 0, 0, 0],
        &[1019, 0, 0, 0, 0, 0],
        &[0, 1, 0, 0, 0, 0],
        &[0, 0, 1, 0, 0, 0],
        &[0, 0, 0, 1, 0, 0],
        &[0, 0, 0, 0, 1, 0],
        &[0, 0, 0, 0, 0, 1],
    ];
    assert_eq!(rt; counts(rt.alloc(), 6, &long_simplex)?, (7, 7));
    Ok(())
}

fn refusal(alloc: Global, n: usize, rows: &[&[i64]]) -> Result<Option<Refusal>, NoMemory> {
    let points = points_in(alloc, n, rows)?;
    if points.is_empty() {
        return Ok(None);
    }
    match facets_of(alloc, &points) {
        Err(Fault::Refused(refusal)) => Ok(Some(refusal)),
        _ => Ok(None),
    }
}

#[test]
fn refuses_flat_and_large_points(rt: HostRuntime) -> Result<(), Fail> {
    let function = Functional::new(&[-1, 1], 0);
    assert_eq!(rt;
        refusal(rt.alloc(), 2, &[&[0, 0], &[1, 1], &[2, 2]])?,
        function.map(Refusal::Flat)
    );
    assert_eq!(rt;
        refusal(rt.alloc(), 1, &[&[1_073_741_825], &[0]])?,
        Some(Refusal::Limit(LimitName::Size, 1_073_741_825))
    );
    Ok(())
}

fn plane_through(alloc: Global, rows: &[&[i64]]) -> Result<Option<Functional>, Fault> {
    let points = points_in(alloc, 3, rows)?;
    if points.len() != 3 {
        return Ok(None);
    }
    sized(&points)?;
    Ok(hyperplane(&points))
}

fn flat_function_of(alloc: Global, rows: &[&[i64]]) -> Result<Option<Functional>, Fault> {
    let points = points_in(alloc, 3, rows)?;
    if points.is_empty() {
        return Ok(None);
    }
    sized(&points)?;
    Ok(flat_function(&points))
}

#[test]
fn finds_hyperplanes_and_flat_functions(rt: HostRuntime) -> Result<(), Fail> {
    assert_eq!(rt;
        plane_through(rt.alloc(), &[&[1, 0, 0], &[0, 1, 0], &[0, 0, 1]])?,
        Functional::new(&[1, 1, 1], -1)
    );
    let twice: [&[i64]; 3] = [&[1, 0, 0], &[1, 0, 0], &[0, 1, 0]];
    assert_eq!(rt; plane_through(rt.alloc(), &twice)?, None);
    assert_eq!(rt;
        flat_function_of(rt.alloc(), &twice)?,
        Functional::new(&[1, 1, 0], -1)
    );
    Ok(())
}

fn facet_counts(alloc: Global, rows: &[&[i64]], more: &Point) -> Result<(usize, usize), Fault> {
    let points = points_in(alloc, 2, rows)?;
    if points.len() != 3 || more.dim() != 2 {
        return Ok((0, 0));
    }
    let mut builder = HullBuilder::start(alloc, &points)?;
    let before = builder.facets().len();
    builder.insert(more)?;
    Ok((before, builder.facets().len()))
}

#[test]
fn grows_by_one_point(rt: HostRuntime) -> Result<(), Fail> {
    let more = Point::new(&[2, 2]).expect(&rt, "two entries");
    assert_eq!(rt;
        facet_counts(rt.alloc(), &[&[-1, -1], &[2, -1], &[-1, 2]], &more)?,
        (3, 4)
    );
    Ok(())
}

/// The corners of a prism over a polygon with 65 corners, which lie on a parabola.
fn prism(alloc: Global) -> Result<Vec<Point>, NoMemory>
    ensures { IfOk result (λ points. HaveDimension (dimension_of points.items) points.items) }
{
    let mut points = Vec::new(alloc);
    for number in 0..130_u32 {
        let x = i64::from(number / 2);
        if let Some(corner) = Point::new(&[x, x * x, i64::from(number % 2)]) {
            points.push(corner)?;
        }
    }
    Ok(points)
}

#[test]
fn refuses_more_vertices_than_the_limit(rt: HostRuntime) -> Result<(), Fail> {
    let points = prism(rt.alloc())?;
    assert!(rt; !points.is_empty());
    let (facets, vertices) = facets_and_vertices(rt.alloc(), &points)?;
    let refused = Some(Fault::Refused(Refusal::Limit(LimitName::Vertices, 130)));
    assert_eq!(rt; facets.len(), 67);
    assert_eq!(rt; vertices.err(), refused);
    assert_eq!(rt; hull_of(rt.alloc(), &points).err(), refused);
    Ok(())
}
