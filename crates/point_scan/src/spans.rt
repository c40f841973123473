//! How far the coordinates of points reach.

ghost use Rattle.std.specs.Prelude.{◌<◌, length};
ghost use Rattle.std.specs.List.{All};
ghost use Rattle.point_scan.specs.ScanSteps.{IsSpan};

use lattice_core::Point;

/// The least and the greatest value of one coordinate.
#[derive(Clone, Copy)]
pub(crate) struct Span {
    pub(crate) low: i64,
    pub(crate) high: i64,
}

/// The span of the points' coordinate `i`.
pub(crate) fn span_of(points: &[Point], i: usize) -> Span
    requires some { 0 < length points.now }
    requires place { All (λ p. i < length p) points.now }
    ensures { IsSpan points.now i result.low result.high }
{
    let first = points[0].entry(i);
    let mut low = first;
    let mut high = first;
    for point in points {
        let entry = point.entry(i);
        low = low.min(entry);
        high = high.max(entry);
    }
    Span { low, high }
}
