//! The simplex from which a hull grows: it begins at the first point with unit steps along the axes, and the farthest points take the places of
//! its corners.

ghost use Rattle.std.specs.Prelude.{◌≡◌, ◌≢◌, ◌↔◌, ℕ, ◌+◌, ◌^◌, ◌<◌, ◌≤◌, [], ◌∷◌, length, set, pos, ◌<ℤ◌, nat_abs, IfOk, IsTrue};
ghost use Rattle.std.specs.List.{All};
ghost use Rattle.lattice_theory.specs.Vector.{HaveDimension, IsPrimitive};
ghost use Rattle.lattice_theory.specs.Affine.{value};
ghost use Rattle.lattice_theory.specs.Size.{absolute_sum};
ghost use Rattle.lattice_core.specs.Combine.{IsSmallAt};
ghost use Rattle.lattice_core.specs.declared.limits.TheConstants.{MOST_COORDINATES};
ghost use Rattle.lattice_core.specs.Dimensions.{dimension_of};
ghost use Rattle.lattice_core.specs.PointLists.{AreSolidPoints};
ghost use Rattle.lattice_core.specs.ValueWidths.{FitsWidth, IsNarrowAt, IsWideAt};
ghost use Rattle.hull_growth.specs.Grown.{HasFacets};
ghost use Rattle.hull.specs.steps.Tight.{function_of};
ghost use Rattle.hull.specs.steps.Facing.{corner_of, IsFacingSimplex, IsTurned, IsTurnable, AreAxes, unit_step, step_at, IsStepped, IsStepFunction, IsTopFunction, IsUnitSimplex};
ghost use Rattle.hull.specs.steps.Simplex.{IsSimplex};
ghost use Rattle.hull.specs.steps.Widths.{ServesPoints};

use crate::functions::opposite;
use arrayvec::ArrayVec;
use lattice_core::{Functional, MOST_COORDINATES, NoMemory, Point, Width, combine};
use std::alloc::Global;

/// The place of a point at which the function is largest in absolute value, where it isn't 0 at all of them, by values in 64 bits. All have so
/// many coordinates.
#[inline]
fn narrow_of(points: &[Point], f: &Functional, count: usize) -> usize
    requires count { length f.now.normal ≡ count }
    requires dimension { HaveDimension count points.now }
    requires fits { All (IsNarrowAt f.now) points.now }
    requires somewhere { All (λ p. value f.now p ≡ pos 0) points.now → ⊥ }
    ensures within { result < length points.now }
    ensures nonzero { value f.now (corner_of points.now result) ≢ pos 0 }
{
    let mut far = 0;
    let mut largest = 0;
    for i in 0..points.len() {
        let distance = f.narrow_at_in(&points[i], count).unsigned_abs();
        if distance > largest {
            largest = distance;
            far = i;
        }
    }
    far
}

/// The same with one loop for each number of coordinates.
fn farthest_narrow(points: &[Point], f: &Functional) -> usize
    requires dimension { HaveDimension (length f.now.normal) points.now }
    requires fits { All (IsNarrowAt f.now) points.now }
    requires somewhere { All (λ p. value f.now p ≡ pos 0) points.now → ⊥ }
    ensures within { result < length points.now }
    ensures nonzero { value f.now (corner_of points.now result) ≢ pos 0 }
{
    match f.dim() {
        1 => narrow_of(points, f, 1),
        2 => narrow_of(points, f, 2),
        3 => narrow_of(points, f, 3),
        4 => narrow_of(points, f, 4),
        5 => narrow_of(points, f, 5),
        6 => narrow_of(points, f, 6),
        count => narrow_of(points, f, count),
    }
}

/// The same by values in 128 bits.
fn farthest_wide(points: &[Point], f: &Functional) -> usize
    requires dimension { HaveDimension (length f.now.normal) points.now }
    requires fits { All (IsWideAt f.now) points.now }
    requires somewhere { All (λ p. value f.now p ≡ pos 0) points.now → ⊥ }
    ensures within { result < length points.now }
    ensures nonzero { value f.now (corner_of points.now result) ≢ pos 0 }
{
    let mut far = 0;
    let mut largest = 0;
    for i in 0..points.len() {
        let distance = f.at(&points[i]).unsigned_abs();
        if distance > largest {
            largest = distance;
            far = i;
        }
    }
    far
}

/// The same in a width.
fn farthest(points: &[Point], f: &Functional, width: Width) -> usize
    requires dimension { HaveDimension (length f.now.normal) points.now }
    requires fits { All (FitsWidth width f.now) points.now }
    requires somewhere { All (λ p. value f.now p ≡ pos 0) points.now → ⊥ }
    ensures within { result < length points.now }
    ensures nonzero { value f.now (corner_of points.now result) ≢ pos 0 }
{
    match width {
        Width::Narrow => farthest_narrow(points, f),
        Width::Wide => farthest_wide(points, f),
    }
}

#[inline]
fn is_positive(a: i128) -> bool
    ensures { IsTrue result ↔ (pos 0 <ℤ a) }
{
    a > 0
}

#[inline]
fn is_zero(a: i128) -> bool
    ensures { IsTrue result ↔ (a ≡ pos 0) }
{
    a == 0
}

/// The function that is positive at the point and the one that is negative there, of the function and its opposite.
fn axes_at(f: &Functional, p: &Point) -> (Functional, Functional)
    requires point { absolute_sum p.now ≤ 2 ^ 30 }
    requires constant { nat_abs f.now.constant ≤ 2 ^ 96 }
    requires entries { All (λ a. nat_abs a < 2 ^ 63) f.now.normal }
    requires primitive { IsPrimitive f.now.normal }
    requires small { IsSmallAt p.now f.now }
    requires nonzero { value f.now p.now ≢ pos 0 }
    ensures { AreAxes f.now p.now result.0 result.1 }
{
    if is_positive(f.at(p)) {
        (f.copied(), opposite(f))
    } else {
        (opposite(f), f.copied())
    }
}

/// The function turned to the point about where the axis vanishes.
fn turned(f: &Functional, axis: &Functional, opposed: &Functional, p: &Point) -> Functional
    requires { IsTurnable f.now axis.now opposed.now p.now }
    ensures { IsTurned f.now axis.now p.now result }
{
    let distance = f.at(p);
    if is_zero(distance) {
        return f.copied();
    }
    if is_positive(distance) {
        combine(f, opposed, p)
    } else {
        combine(f, axis, p)
    }
}

/// Puts one of the points, at which the function in that place isn't 0, into the place of a corner.
fn exchange(
    points: &[Point],
    far: usize,
    place: usize,
    corners: &mut Vec<Point>,
    functions: &mut Vec<Functional>,
)
    requires points { AreSolidPoints points.now }
    requires far { far < length points.now }
    requires place { place < dimension_of points.now + 1 }
    requires simplex { IsFacingSimplex (dimension_of points.now) points.now corners.old.items functions.old.items }
    requires nonzero { value (function_of functions.old.items place) (corner_of points.now far) ≢ pos 0 }
    ensures corners { corners.new.items ≡ set corners.old.items place (corner_of points.now far) }
    ensures simplex { IsFacingSimplex (dimension_of points.now) points.now corners.new.items functions.new.items }
{
    let p = &points[far];
    let (axis, opposed) = axes_at(&functions[place], p);
    for i in 0..functions.len() {
        if i != place {
            functions[i] = turned(&functions[i], &axis, &opposed, p);
        }
    }
    functions[place] = axis;
    corners[place] = p.copied();
}

/// A unit step along an axis at this coordinate: towards 0, or from 0 to 1.
#[inline]
fn unit_step(coordinate: i64) -> i64
    ensures value { result ≡ unit_step coordinate }
    ensures bound { nat_abs result ≤ 1 }
{
    if coordinate > 0 { -1 } else { 1 }
}

/// The step in the coordinate `i` along an axis.
#[inline]
fn step_at(axis: usize, i: usize, coordinate: i64) -> i64
    ensures value { result ≡ step_at axis i coordinate }
    ensures bound { nat_abs result ≤ 1 }
{
    if i == axis { unit_step(coordinate) } else { 0 }
}

/// The point one unit step along the axis from the first one.
fn stepped(first: &Point, axis: usize) -> Point
    requires small { absolute_sum first.now ≤ 2 ^ 30 }
    requires least { 1 ≤ length first.now }
    requires most { length first.now ≤ MOST_COORDINATES }
    ensures { IsStepped first.now axis result }
{
    let mut entries: ArrayVec<i64, MOST_COORDINATES> = ArrayVec::new();
    for i in 0..first.dim() {
        entries.push(first.entry(i) + step_at(axis, i, first.entry(i)));
    }
    match Point::new(entries.as_slice()) {
        Some(point) => point,
        None => unreachable!(),
    }
}

/// The function with a unit step along the axis as its normal that vanishes at the first point.
fn step_function(first: &Point, axis: usize) -> Functional
    requires small { absolute_sum first.now ≤ 2 ^ 30 }
    ensures { IsStepFunction first.now axis result }
{
    let mut normal: ArrayVec<i64, MOST_COORDINATES> = ArrayVec::new();
    for i in 0..first.dim() {
        normal.push(step_at(axis, i, first.entry(i)));
    }
    Functional::through(normal.as_slice(), first.entries())
}

/// The function with all unit steps at the first point, taken back, as its normal that vanishes at the other.
fn top_function(first: &Point, other: &Point) -> Functional
    requires same { length first.now ≡ length other.now }
    requires small { absolute_sum other.now ≤ 2 ^ 60 }
    ensures { IsTopFunction first.now other.now result }
{
    let mut normal: ArrayVec<i64, MOST_COORDINATES> = ArrayVec::new();
    for i in 0..first.dim() {
        normal.push(-unit_step(first.entry(i)));
    }
    Functional::through(normal.as_slice(), other.entries())
}

/// The first point and the points one unit step from it along each axis, with the functions that face them.
fn unit_simplex(alloc: Global, first: &Point) -> Result<(Vec<Point>, Vec<Functional>), NoMemory>
    requires small { absolute_sum first.now ≤ 2 ^ 30 }
    ensures { IfOk result (λ simplex. IsUnitSimplex first.now simplex.0.items simplex.1.items) }
{
    let n = first.dim();
    let mut corners = Vec::with_capacity(alloc, n + 1)?;
    let mut functions = Vec::with_capacity(alloc, n + 1)?;
    corners.push(first.copied())?;
    functions.push(top_function(first, &stepped(first, 0)))?;
    for axis in 0..n {
        corners.push(stepped(first, axis))?;
        functions.push(step_function(first, axis))?;
    }
    Ok((corners, functions))
}

/// One more of the points than coordinates that aren't flat, far from each other, and their facets, each once.
pub(crate) fn first_simplex(
    alloc: Global,
    points: &[Point],
    width: Width,
) -> Result<(Vec<Point>, Vec<Functional>), NoMemory>
    requires points { AreSolidPoints points.now }
    requires width { ServesPoints points.now width }
    ensures corners { IfOk result (λ simplex. IsSimplex points.now simplex.0.items) }
    ensures facets { IfOk result (λ simplex. HasFacets (dimension_of points.now) simplex.0.items simplex.1.items) }
{
    let n = points[0].dim();
    let (mut corners, mut functions) = unit_simplex(alloc, &points[0])?;
    for place in 1..n + 1 {
        let far = farthest(points, &functions[place], width);
        exchange(points, far, place, &mut corners, &mut functions);
    }
    Ok((corners, functions))
}
