//! The calls on hulls agree with each other on larger lists of points, and find as many facets and vertices as are known: cyclic polytopes, a grid,
//! and the exponent vectors of a degree.

ghost use Rattle.std.specs.Prelude.{◌≡◌, ◌+◌, ◌<◌, ◌≤◌, length};
ghost use Rattle.lattice_core.specs.Dimensions.{dimension_of};
ghost use Rattle.lattice_core.specs.PointLists.{ArePoints};

use crate::hulls::{add, add_axes, agree, built, hull_of};
use crate::scans::{are_points, points_of};
use hull::{HullBuilder, facets_of, vertices_of};
use lattice_core::{Fault, LimitName, NoMemory, Point, Refusal};
use std::alloc::Global;
use std::test::Fail;

/// Twelve points of a curve in dimension 6: polynomials of the degrees 1 to 6 at twelve equally spaced places, each orthogonal to those of lower
/// degree there, which keeps their values small. Their hull is affinely that of points of the moment curve, so it is the cyclic polytope.
const TWELVE_ON_CURVE: [[i64; 6]; 12] = [
    [-11, 55, -33, 33, -33, 11],
    [-9, 25, 3, -27, 57, -31],
    [-7, 1, 21, -33, 21, 11],
    [-5, -17, 25, -13, -29, 25],
    [-3, -29, 19, 12, -44, 4],
    [-1, -35, 7, 28, -20, -20],
    [1, -35, -7, 28, 20, -20],
    [3, -29, -19, 12, 44, 4],
    [5, -17, -25, -13, 29, 25],
    [7, 1, -21, -33, -21, 11],
    [9, 25, -3, -27, -57, -31],
    [11, 55, 33, 33, 33, 11],
];

/// Thirteen points of such a curve.
const THIRTEEN_ON_CURVE: [[i64; 6]; 13] = [
    [-6, 22, -11, 99, -22, 22],
    [-5, 11, 0, -66, 33, -55],
    [-4, 2, 6, -96, 18, 8],
    [-3, -5, 8, -54, -11, 43],
    [-2, -10, 7, 11, -26, 22],
    [-1, -13, 4, 64, -20, -20],
    [0, -14, 0, 84, 0, -40],
    [1, -13, -4, 64, 20, -20],
    [2, -10, -7, 11, 26, 22],
    [3, -5, -8, -54, 11, 43],
    [4, 2, -6, -96, -18, 8],
    [5, 11, 0, -66, -33, -55],
    [6, 22, 11, 99, 22, 22],
];

/// The first six digits of a number to a base, from the lowest on.
fn digits(number: u32, base: u32) -> [i64; 6]
    requires { 0 < base }
{
    let mut entries = [0; 6];
    let mut rest = number;
    for axis in 0..6_usize {
        entries[axis] = i64::from(rest % base);
        rest /= base;
    }
    entries
}

/// A grid of 4 points along each of 4 axes: first some points that aren't flat, then all of them.
fn grid(alloc: Global) -> Result<Vec<Point>, NoMemory> {
    let mut points = Vec::new(alloc);
    add(&mut points, 4, &[0; 6])?;
    add_axes(&mut points, 4, 1)?;
    for number in 0..256 {
        add(&mut points, 4, digits(number, 4).as_slice())?;
    }
    Ok(points)
}

/// The exponent vectors of degree 6 in 6 variables without their last entry: first some that aren't flat, then all 462.
fn exponent_vectors(alloc: Global) -> Result<Vec<Point>, NoMemory> {
    let mut points = Vec::new(alloc);
    add(&mut points, 5, &[0; 6])?;
    add_axes(&mut points, 5, 1)?;
    for number in 0..16_807 {
        let exponents = digits(number, 7);
        if exponents.iter().fold(0_i64, |sum, e| sum.wrapping_add(*e)) <= 6 {
            add(&mut points, 5, exponents.as_slice())?;
        }
    }
    Ok(points)
}

/// Whether the points have so many facets and vertices, and a builder has the facets of the points so far after each of them.
fn hulls_agree(
    alloc: Global,
    points: &[Point],
    facets: usize,
    vertices: usize,
) -> Result<bool, Fault> {
    if !are_points(points) {
        return Ok(false);
    }
    let count = points[0].dim() + 1;
    if points.len() < count {
        return Ok(false);
    }
    let (found, corners) = hull_of(alloc, points)?;
    Ok(found.len() == facets && corners.len() == vertices && built(alloc, points, count)?.is_some())
}

/// The numbers of facets and of vertices of a builder that is given the points one by one.
fn grown(alloc: Global, points: &[Point], count: usize) -> Result<(usize, usize), Fault>
    requires points { ArePoints points.now }
    requires count { count ≡ dimension_of points.now + 1 }
    requires enough { count ≤ length points.now }
{
    let mut builder = HullBuilder::start(alloc, &points[..count])?;
    for i in count..points.len() {
        builder.insert(&points[i])?;
    }
    let vertices = vertices_of(alloc, points, builder.facets())?;
    Ok((builder.facets().len(), vertices.len()))
}

/// Whether the points are refused for so many facets, and a builder has as many, and so many vertices.
fn has_too_many(
    alloc: Global,
    points: &[Point],
    facets: usize,
    vertices: usize,
) -> Result<bool, Fault> {
    if !are_points(points) {
        return Ok(false);
    }
    let count = points[0].dim() + 1;
    if points.len() < count {
        return Ok(false);
    }
    let refusal = Fault::Refused(Refusal::Limit(LimitName::Facets, facets as u128));
    Ok(
        facets_of(alloc, points).err() == Some(refusal)
            && grown(alloc, points, count)? == (facets, vertices),
    )
}

/// A cyclic polytope of dimension 6 with v vertices has v / (v - 3) times v - 3 over 3 facets: 112 for twelve.
#[test]
fn agree_on_a_cyclic_polytope(rt: HostRuntime) -> Result<(), Fail> {
    let points = points_of(rt.alloc(), &TWELVE_ON_CURVE)?;
    assert!(rt; hulls_agree(rt.alloc(), &points, 112, 12)?);
    Ok(())
}

/// For thirteen there are 156.
#[test]
fn agree_on_too_many_facets(rt: HostRuntime) -> Result<(), Fail> {
    let points = points_of(rt.alloc(), &THIRTEEN_ON_CURVE)?;
    assert!(rt; has_too_many(rt.alloc(), &points, 156, 13)?);
    Ok(())
}

#[test]
fn agree_on_a_grid(rt: HostRuntime) -> Result<(), Fail> {
    let points = grid(rt.alloc())?;
    assert!(rt; agree(rt.alloc(), &points, (8, 16, 256))?);
    Ok(())
}

#[test]
fn agree_on_exponent_vectors(rt: HostRuntime) -> Result<(), Fail> {
    let points = exponent_vectors(rt.alloc())?;
    assert!(rt; agree(rt.alloc(), &points, (6, 6, 462))?);
    Ok(())
}
