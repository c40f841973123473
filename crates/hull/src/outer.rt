//! The points outside the simplex from which a hull grows.

ghost use Rattle.std.specs.Prelude.{◌≡◌, ◌↔◌, ◌≤◌, ◌≤ℤ◌, length, pos, IfOk, IsTrue};
ghost use Rattle.std.specs.List.{All};
ghost use Rattle.lattice_theory.specs.Affine.{value};
ghost use Rattle.lattice_core.specs.Dimensions.{dimension_of};
ghost use Rattle.lattice_core.specs.PointLists.{AreSolidPoints};
ghost use Rattle.lattice_core.specs.ValueWidths.{FitsWidth, IsNarrowAt};
ghost use Rattle.hull_growth.specs.Grown.{HasFacets};
ghost use Rattle.hull.specs.steps.Growing.{IsOuter};
ghost use Rattle.hull.specs.steps.Simplex.{IsSimplex};
ghost use Rattle.hull.specs.steps.Widths.{ServesPoints};

use crate::builder::copied_points;
use lattice_core::{Functional, NoMemory, Point, Width};
use std::alloc::Global;

/// Whether no function is negative at the point, by values in 64 bits. All have so many coordinates.
#[inline]
fn are_nonnegative_in(functions: &[Functional], p: &Point, count: usize) -> bool
    requires functions { All (λ f. length f.normal ≡ count) functions.now }
    requires point { length p.now ≡ count }
    requires fits { All (λ f. IsNarrowAt f p.now) functions.now }
    ensures { IsTrue result ↔ All (λ f. pos 0 ≤ℤ value f p.now) functions.now }
{
    functions.iter().all(|f| f.narrow_at_in(p, count) >= 0)
}

/// The same with one loop for each number of coordinates.
#[inline]
fn are_narrow_nonnegative(functions: &[Functional], p: &Point) -> bool
    requires dimension { All (λ f. length f.normal ≡ length p.now) functions.now }
    requires fits { All (λ f. IsNarrowAt f p.now) functions.now }
    ensures { IsTrue result ↔ All (λ f. pos 0 ≤ℤ value f p.now) functions.now }
{
    match p.dim() {
        1 => are_nonnegative_in(functions, p, 1),
        2 => are_nonnegative_in(functions, p, 2),
        3 => are_nonnegative_in(functions, p, 3),
        4 => are_nonnegative_in(functions, p, 4),
        5 => are_nonnegative_in(functions, p, 5),
        6 => are_nonnegative_in(functions, p, 6),
        count => are_nonnegative_in(functions, p, count),
    }
}

/// The same in a width.
#[inline]
fn are_nonnegative(functions: &[Functional], p: &Point, width: Width) -> bool
    requires dimension { All (λ f. length f.normal ≡ length p.now) functions.now }
    requires fits { All (λ f. FitsWidth width f p.now) functions.now }
    ensures { IsTrue result ↔ All (λ f. pos 0 ≤ℤ value f p.now) functions.now }
{
    match width {
        Width::Narrow => are_narrow_nonnegative(functions, p),
        Width::Wide => functions.iter().all(|f| f.at(p) >= 0),
    }
}

/// The corners of a simplex of some of the points, and those of the points that lie outside it.
pub(crate) fn outer_points(
    alloc: Global,
    corners: &[Point],
    functions: &[Functional],
    points: &[Point],
    width: Width,
) -> Result<Vec<Point>, NoMemory>
    requires points { AreSolidPoints points.now }
    requires simplex { IsSimplex points.now corners.now }
    requires facets { HasFacets (dimension_of corners.now) corners.now functions.now }
    requires width { ServesPoints points.now width }
    ensures { IfOk result (λ outer. IsOuter corners.now functions.now points.now outer.items) }
{
    let mut outer = copied_points(alloc, corners)?;
    for p in points {
        if !are_nonnegative(functions, p, width) {
            outer.push(p.copied())?;
        }
    }
    Ok(outer)
}
