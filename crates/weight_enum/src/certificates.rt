//! Certificates that are sought by a simplex and checked exactly.
ghost use Rattle.std.specs.Prelude.{◌≤◌, IfOk, IsTrue};
ghost use Rattle.std.specs.List.{All};
ghost use Rattle.lattice_theory.specs.Vector.{HaveDimension};
ghost use Rattle.lattice_theory.specs.Size.{absolute_sum};
ghost use Rattle.interior_point_theory.specs.Certificates.{IsSurrounded};
ghost use Rattle.weight_enum.specs.steps.Refuters.{IsVerdict};

use crate::refuters::{Refuters, refutes};
use crate::simplex::{Basis, first_nonzero, largest};
use lattice_core::{Functional, MOST_COORDINATES, NoMemory, Point};
use std::alloc::Global;
use weight_certificates::{Corner, MOST_COUNT, is_surrounding};

/// The most points that are taken in before the search is given up.
const MOST_STEPS: usize = 60;

/// The linear function with the first of these coefficients.
fn linear(vector: &[i64; MOST_COORDINATES], n: usize) -> Option<Functional> {
    Functional::new(vector.get(..n)?, 0)
}

/// The opposite of the prices.
fn opposite(vector: &[i64; MOST_COORDINATES]) -> [i64; MOST_COORDINATES] {
    let mut opposite = [0_i64; MOST_COORDINATES];
    for j in 0..MOST_COORDINATES {
        opposite[j] = vector[j].wrapping_neg();
    }
    opposite
}

/// Takes points in until they are balanced. It answers a function that may refute them, where none is left that can be taken in.
fn balance(basis: &mut Basis, points: &[Point], n: usize) -> Option<Functional> {
    for _ in 0..MOST_STEPS {
        if basis.is_balanced() {
            return None;
        }
        let prices = basis.prices();
        let Some(place) = largest(points, &prices) else {
            return linear(&opposite(&prices), n);
        };
        if !basis.step(points, place) {
            return None;
        }
        basis.turn();
    }
    None
}

/// Takes points in for the unit vectors that are left. It answers a function that may be 0 at all points, where there is none for one of them.
fn complete(basis: &mut Basis, points: &[Point], n: usize) -> Option<Functional> {
    for r in 0..n {
        if let Some(vector) = basis.unit_row(r) {
            match first_nonzero(points, &vector) {
                Some(place) => basis.enter(r, points, place),
                None => return linear(&vector, n),
            }
            basis.turn();
        }
    }
    None
}

/// A number of times, or -1, which isn't one, where it is too large.
fn times_of(value: i128) -> i64 {
    if 0 <= value && value < 9_223_372_036_854_775_808 {
        value as i64
    } else {
        -1
    }
}

/// The corners that the rows choose.
fn corners_of(alloc: Global, basis: &Basis, n: usize) -> Result<Vec<Corner>, NoMemory> {
    let mut corners = Vec::with_capacity(alloc, n)?;
    for row in basis.rows.as_slice() {
        let vector = row.vector.get(..n).and_then(|entries| Point::new(entries));
        if let (Some(place), Some(vector)) = (row.place, vector) {
            corners.push(Corner {
                place,
                vector,
                multiple: times_of(row.value),
            })?;
        }
    }
    Ok(corners)
}

/// Whether the corners with the divisor surround the origin.
fn surround(points: &[Point], n: usize, corners: &[Corner], divisor: i64) -> bool
    requires few { n ≤ 5 }
    requires dimension { HaveDimension n points.now }
    requires small { All (λ y. absolute_sum y ≤ 8_192) points.now }
    ensures { IsTrue result → IsSurrounded n points.now }
{
    corners.len() == n
        && points.len() <= MOST_COUNT
        && is_surrounding(points, corners, divisor, divisor.unsigned_abs())
}

/// What a function shows, which is kept where it refutes.
fn against(
    f: Functional,
    points: &[Point],
    n: usize,
    refuters: &mut Refuters,
) -> Result<Option<bool>, NoMemory>
    requires dimension { HaveDimension n points.now }
    requires small { All (λ y. absolute_sum y ≤ 8_192) points.now }
    ensures { IfOk result (IsVerdict n points.now) }
{
    if !refutes(&f, points, n) {
        return Ok(None);
    }
    refuters.add(f)?;
    Ok(Some(false))
}

/// What a simplex shows of points with `n` coordinates: that they are around the origin, that they aren't, or nothing. A function that refutes is
/// kept.
pub(crate) fn verdict_of(
    alloc: Global,
    points: &[Point],
    n: usize,
    refuters: &mut Refuters,
) -> Result<Option<bool>, NoMemory>
    requires few { n ≤ 5 }
    requires dimension { HaveDimension n points.now }
    requires small { All (λ y. absolute_sum y ≤ 8_192) points.now }
    ensures { IfOk result (IsVerdict n points.now) }
{
    let mut basis = Basis::new(points, n);
    if let Some(f) = balance(&mut basis, points, n) {
        return against(f, points, n, refuters);
    }
    if let Some(f) = complete(&mut basis, points, n) {
        return against(f, points, n, refuters);
    }
    let corners = corners_of(alloc, &basis, n)?;
    if surround(points, n, &corners, basis.divisor) {
        return Ok(Some(true));
    }
    Ok(None)
}
