//! The points of a matrix.

ghost use Rattle.std.specs.Prelude.{◌≡◌, ◌+◌, ◌*◌, ◌<◌, ◌≤◌, length, MatchResult, IfOk};
ghost use Rattle.item_points.specs.Matrices.{number_at, coordinate_of, coordinate_count, point_at, point_count, points_of, AreMatrixPoints, IsMatrixRefusal};
ghost use Rattle.lattice_core.specs.Stops.{Stops};

use arrayvec::ArrayVec;
use lattice_core::{Fault, LimitName, MOST_COORDINATES, MOST_NUMBERS, NoMemory, Point, Refusal};
use palp_input::Matrix;
use std::alloc::Global;

/// How many coordinates each point has: the smaller one of the numbers of lines and of columns.
fn dimension(matrix: &Matrix) -> u64
    ensures { result ≡ coordinate_count matrix.now.lines matrix.now.columns }
{
    matrix.lines.min(matrix.columns)
}

/// How many points there are: the larger one of the numbers of lines and of columns.
fn count(matrix: &Matrix) -> u64
    ensures { result ≡ point_count matrix.now.lines matrix.now.columns }
{
    matrix.lines.max(matrix.columns)
}

/// The number in a line and a column, both counted from 0.
fn number(matrix: &Matrix, line: u64, column: u64) -> i64
    requires full { length matrix.now.entries.items ≡ matrix.now.lines * matrix.now.columns }
    requires line { line < matrix.now.lines }
    requires column { column < matrix.now.columns }
    requires most_lines { matrix.now.lines ≤ MOST_NUMBERS }
    requires most_columns { matrix.now.columns ≤ MOST_NUMBERS }
    ensures { result ≡ number_at matrix.now.columns matrix.now.entries.items line column }
{
    matrix.entries[(line * matrix.columns + column) as usize]
}

/// A coordinate of a point, both counted from 0.
fn coordinate(matrix: &Matrix, point: u64, place: u64) -> i64
    requires full { length matrix.now.entries.items ≡ matrix.now.lines * matrix.now.columns }
    requires few { point_count matrix.now.lines matrix.now.columns ≤ MOST_NUMBERS }
    requires point { point < point_count matrix.now.lines matrix.now.columns }
    requires place { place < coordinate_count matrix.now.lines matrix.now.columns }
    ensures { result ≡ coordinate_of matrix.now.lines matrix.now.columns matrix.now.entries.items point place }
{
    if matrix.columns <= matrix.lines {
        number(matrix, point, place)
    } else {
        number(matrix, place, point)
    }
}

/// A point, counted from 0.
fn point(matrix: &Matrix, index: u64) -> Point
    requires full { length matrix.now.entries.items ≡ matrix.now.lines * matrix.now.columns }
    requires few { point_count matrix.now.lines matrix.now.columns ≤ MOST_NUMBERS }
    requires least { 1 ≤ coordinate_count matrix.now.lines matrix.now.columns }
    requires most { coordinate_count matrix.now.lines matrix.now.columns ≤ MOST_COORDINATES }
    requires index { index < point_count matrix.now.lines matrix.now.columns }
    ensures { result ≡ point_at matrix.now.lines matrix.now.columns matrix.now.entries.items index }
{
    let mut coordinates = ArrayVec::<i64, MOST_COORDINATES>::new();
    for place in 0..dimension(matrix) {
        coordinates.push(coordinate(matrix, index, place));
    }
    match Point::new(coordinates.as_slice()) {
        Some(point) => point,
        None => unreachable!(),
    }
}

/// The points, in their order: the lines where there are at least as many lines as columns, otherwise the columns.
fn points(alloc: Global, matrix: &Matrix) -> Result<Vec<Point>, NoMemory>
    requires full { length matrix.now.entries.items ≡ matrix.now.lines * matrix.now.columns }
    requires few { point_count matrix.now.lines matrix.now.columns ≤ MOST_NUMBERS }
    requires least { 1 ≤ coordinate_count matrix.now.lines matrix.now.columns }
    requires most { coordinate_count matrix.now.lines matrix.now.columns ≤ MOST_COORDINATES }
    ensures { IfOk result (λ points. points.items ≡ points_of matrix.now.lines matrix.now.columns matrix.now.entries.items) }
{
    let mut points = Vec::new(alloc);
    for index in 0..count(matrix) {
        points.push(point(matrix, index))?;
    }
    Ok(points)
}

/// The points, of any size, of a matrix that is within the limits on its header, or its refusal.
pub(crate) fn matrix_points(alloc: Global, matrix: &Matrix) -> Result<Vec<Point>, Fault>
    requires { length matrix.now.entries.items ≡ matrix.now.lines * matrix.now.columns }
    ensures { MatchResult result
        (λ points. AreMatrixPoints matrix.now.lines matrix.now.columns matrix.now.entries.items points.items)
        (Stops (IsMatrixRefusal matrix.now.lines matrix.now.columns)) }
{
    let coordinates = dimension(matrix);
    if coordinates == 0 || coordinates > MOST_COORDINATES as u64 {
        return Err(Fault::Refused(Refusal::Limit(LimitName::Dim, u128::from(coordinates))));
    }
    let count = count(matrix);
    if count > MOST_NUMBERS {
        return Err(Fault::Refused(Refusal::Limit(LimitName::Input, u128::from(count))));
    }
    Ok(points(alloc, matrix)?)
}
