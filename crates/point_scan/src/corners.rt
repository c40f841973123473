//! The box of a dilate.

ghost use Rattle.std.specs.Prelude.{◌≡◌, ◌≤◌, length};
ghost use Rattle.lattice_core.specs.Dimensions.{dimension_of};
ghost use Rattle.lattice_core.specs.PointLists.{AreSizedPoints};
ghost use Rattle.lattice_core.specs.declared.limits.TheConstants.{MOST_COORDINATES};
ghost use Rattle.point_scan.specs.ScanSteps.{AreCorners};
ghost use Rattle.point_scan.specs.declared.limits.TheConstants.{MOST_DILATE};

use crate::spans::span_of;
use arrayvec::ArrayVec;
use lattice_core::{MOST_COORDINATES, Point};

/// The lowest and the highest corner of a box.
#[derive(Drop)]
pub(crate) struct Corners {
    pub(crate) low: Point,
    pub(crate) high: Point,
}

/// The point with these entries.
pub(crate) fn point_of(entries: &[i64]) -> Point
    requires least { 1 ≤ length entries.now }
    requires most { length entries.now ≤ MOST_COORDINATES }
    ensures { result ≡ entries.now }
{
    match Point::new(entries) {
        Some(point) => point,
        None => unreachable!(),
    }
}

/// The corners of a box that holds each point `dilate` times. In each coordinate it reaches no further than `dilate` times the largest absolute
/// value there.
pub(crate) fn corners_of(points: &[Point], dilate: u32) -> Corners
    requires points { AreSizedPoints points.now }
    requires dilate { dilate ≤ MOST_DILATE }
    ensures least { 1 ≤ dimension_of points.now }
    ensures corners { AreCorners (dimension_of points.now) points.now dilate result.low result.high }
{
    let factor = i64::from(dilate);
    let mut low = ArrayVec::<i64, MOST_COORDINATES>::new();
    let mut high = ArrayVec::<i64, MOST_COORDINATES>::new();
    for i in 0..points[0].dim() {
        let span = span_of(points, i);
        low.push(factor * span.low);
        high.push(factor * span.high);
    }
    Corners {
        low: point_of(&low),
        high: point_of(&high),
    }
}
