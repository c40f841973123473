//! The points that lie beyond functions: at which these are negative.
ghost use Rattle.std.specs.Prelude.{◌≡◌, ◌≤◌, length, MatchOption};
ghost use Rattle.std.specs.List.{All, AllWithin};
ghost use Rattle.lattice_theory.specs.Vector.{HaveDimension};
ghost use Rattle.lattice_theory.specs.Affine.{IsNonnegative};
ghost use Rattle.lattice_core.specs.ValueWidths.{FitsWidth, IsNarrowAt, IsWideAt};
ghost use Rattle.hull_growth.specs.Beyond.{IsFarthest, IsFirstBeyond};

use lattice_core::{Functional, Point, Width};

/// The places of a function and of a point beyond it.
#[derive(Clone, Copy, Debug, PartialEq, Eq)]
pub struct Beyond {
    /// The place of the function.
    pub facet: usize,
    /// The place of the point.
    pub point: usize,
}

/// The place of a point that lies farthest beyond the function, if one lies beyond it, by values in 64 bits. All have so many coordinates.
#[inline]
fn narrow_of(f: &Functional, points: &[Point], count: usize) -> Option<usize>
    requires count { length f.now.normal ≡ count }
    requires dimension { HaveDimension count points.now }
    requires fits { All (IsNarrowAt f.now) points.now }
    ensures { MatchOption result (IsNonnegative points.now f.now) (IsFarthest f.now points.now) }
{
    let mut lowest = 0;
    let mut place = None;
    for i in 0..points.len() {
        let value = f.narrow_at_in(&points[i], count);
        if value < lowest {
            lowest = value;
            place = Some(i);
        }
    }
    place
}

/// The same with one loop for each number of coordinates.
fn farthest_narrow(f: &Functional, points: &[Point]) -> Option<usize>
    requires dimension { HaveDimension (length f.now.normal) points.now }
    requires fits { All (IsNarrowAt f.now) points.now }
    ensures { MatchOption result (IsNonnegative points.now f.now) (IsFarthest f.now points.now) }
{
    match f.dim() {
        1 => narrow_of(f, points, 1),
        2 => narrow_of(f, points, 2),
        3 => narrow_of(f, points, 3),
        4 => narrow_of(f, points, 4),
        5 => narrow_of(f, points, 5),
        6 => narrow_of(f, points, 6),
        count => narrow_of(f, points, count),
    }
}

/// The same by values in 128 bits.
fn farthest_wide(f: &Functional, points: &[Point]) -> Option<usize>
    requires dimension { HaveDimension (length f.now.normal) points.now }
    requires fits { All (IsWideAt f.now) points.now }
    ensures { MatchOption result (IsNonnegative points.now f.now) (IsFarthest f.now points.now) }
{
    let mut least = 0;
    let mut place = None;
    for i in 0..points.len() {
        let value = f.at(&points[i]);
        if value < least {
            least = value;
            place = Some(i);
        }
    }
    place
}

/// The same in a width.
fn farthest(f: &Functional, points: &[Point], width: Width) -> Option<usize>
    requires dimension { HaveDimension (length f.now.normal) points.now }
    requires fits { All (FitsWidth width f.now) points.now }
    ensures { MatchOption result (IsNonnegative points.now f.now) (IsFarthest f.now points.now) }
{
    match width {
        Width::Narrow => farthest_narrow(f, points),
        Width::Wide => farthest_wide(f, points),
    }
}

/// Of the functions from the place `from` on the first that has points beyond it, and one of these that lies farthest. It is `None` exactly where no point
/// lies beyond any of them. All have the points' dimension, and values are worked out in a width that they and the points fit. It takes no memory.
pub fn first_beyond(
    functions: &[Functional],
    points: &[Point],
    from: usize,
    width: Width,
) -> Option<Beyond>
    requires dimension { All (λ f. HaveDimension (length f.normal) points.now) functions.now }
    requires fits { All (λ f. All (FitsWidth width f) points.now) functions.now }
    ensures { MatchOption result (AllWithin (IsNonnegative points.now) functions.now from (length functions.now))
        (λ b. IsFirstBeyond functions.now points.now from b.facet b.point) }
{
    for facet in from..functions.len() {
        if let Some(point) = farthest(&functions[facet], points, width) {
            return Some(Beyond { facet, point });
        }
    }
    None
}
