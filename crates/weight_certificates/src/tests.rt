//! Tests of both checks on small lists of points.
ghost use Rattle.std.specs.Prelude.{◌≡◌, ◌*◌, ◌≤◌, length, pos, nat_abs, IfOk};
ghost use Rattle.std.specs.List.{All};
ghost use Rattle.lattice_theory.specs.Vector.{HaveDimension};
ghost use Rattle.lattice_theory.specs.Size.{absolute_sum};

use crate::{Corner, is_refuter, is_surrounding};
use lattice_core::{Functional, Point};
use std::process::Abort;
use std::test::Fail;

/// The point with these two coordinates.
fn point(rt: &impl Abort, row: [i8; 2]) -> Point
    ensures dimension { length result ≡ 2 }
    ensures small { absolute_sum result ≤ 256 }
{
    Point::new(&[i64::from(row[0]), i64::from(row[1])]).expect(rt, "two entries")
}

/// The points with these coordinates.
fn points_of(rt: &(impl Abort + AllocGlobal), rows: [[i8; 2]; 4]) -> Result<Vec<Point>, Fail>
    ensures dimension { IfOk result (λ points. HaveDimension 2 points.items) }
    ensures small { IfOk result (λ points. All (λ y. absolute_sum y ≤ 256) points.items) }
    ensures count { IfOk result (λ points. length points.items ≤ 4) }
{
    let mut points = Vec::new(rt.alloc());
    for i in 0..4 {
        points.push(point(rt, rows[i]))?;
    }
    Ok(points)
}

/// The linear function with this normal.
fn function(rt: &impl Abort, normal: [i8; 2]) -> Functional
    ensures linear { result.constant ≡ pos 0 }
    ensures dimension { length result.normal ≡ 2 }
    ensures small { All (λ a. nat_abs a ≤ 128) result.normal }
{
    Functional::new(&[i64::from(normal[0]), i64::from(normal[1])], 0).expect(rt, "two entries")
}

/// Whether the function with this normal refutes the points with these coordinates.
fn refutes(
    rt: &(impl Abort + AllocGlobal),
    normal: [i8; 2],
    rows: [[i8; 2]; 4],
) -> Result<bool, Fail> {
    let points = points_of(rt, rows)?;
    Ok(is_refuter(&points, &function(rt, normal)))
}

/// Whether the last two of the points (-1, -1), (-1, -1), (2, -1) and (-1, 2), with the inverse of the divisor 3, these multiples and this number
/// of times, surround the origin.
fn surrounds(
    rt: &(impl Abort + AllocGlobal),
    multiples: [i64; 2],
    divisor: i64,
    times: u64,
) -> Result<bool, Fail> {
    let points = points_of(rt, [[-1, -1], [-1, -1], [2, -1], [-1, 2]])?;
    let corners = [
        Corner {
            place: 2,
            vector: point(rt, [2, 1]),
            multiple: multiples[0],
        },
        Corner {
            place: 3,
            vector: point(rt, [1, 2]),
            multiple: multiples[1],
        },
    ];
    Ok(is_surrounding(&points, &corners, divisor, times))
}

#[test]
fn refuter_is_nonnegative_and_not_zero(rt: HostRuntime) -> Result<(), Fail> {
    let rows = [[0, -1], [0, 2], [1, 0], [1, 1]];
    assert!(rt; refutes(&rt, [1, 0], rows)?);
    assert!(rt; !refutes(&rt, [0, 1], rows)?);
    assert!(rt; !refutes(&rt, [0, 0], rows)?);
    Ok(())
}

#[test]
fn surrounding_has_an_inverse_and_the_sum_0(rt: HostRuntime) -> Result<(), Fail> {
    assert!(rt; surrounds(&rt, [1, 1], 3, 1)?);
    assert!(rt; surrounds(&rt, [2, 2], 3, 2)?);
    assert!(rt; !surrounds(&rt, [1, 1], 3, 2)?);
    assert!(rt; !surrounds(&rt, [1, 2], 3, 1)?);
    assert!(rt; !surrounds(&rt, [1, 1], 2, 1)?);
    Ok(())
}
