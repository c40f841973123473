//! Whether a few of the points tell that all of them aren't flat.

ghost use Rattle.std.specs.Prelude.{◌<◌, length, IfOk, IsTrue};
ghost use Rattle.std.specs.List.{All, Contains};
ghost use Rattle.lattice_theory.specs.Facet.{IsFlat};
ghost use Rattle.lattice_core.specs.Dimensions.{dimension_of};
ghost use Rattle.lattice_core.specs.PointLists.{AreSizedPoints};

use crate::flat::flat_function;
use lattice_core::{NoMemory, Point};
use std::alloc::Global;

/// How many of the points are looked at first.
const SPREAD_POINTS: usize = 16;

/// The first of the points and others in even steps behind it.
fn spread_points(alloc: Global, points: &[Point]) -> Result<Vec<Point>, NoMemory>
    requires { 0 < length points.now }
    ensures some { IfOk result (λ spread. 0 < length spread.items) }
    ensures among { IfOk result (λ spread. All (Contains points.now) spread.items) }
{
    let step = points.len() / SPREAD_POINTS + 1;
    let mut spread = Vec::with_capacity(alloc, SPREAD_POINTS)?;
    spread.push(points[0].copied())?;
    for turn in 1..SPREAD_POINTS {
        let place = step.saturating_mul(turn);
        if place < points.len() {
            spread.push(points[place].copied())?;
        }
    }
    Ok(spread)
}

/// Whether a few of the points, spread over the list, aren't flat, where there is memory for them. In lists of lattice points in order these are
/// mostly far from each other, and then all points aren't flat.
pub(crate) fn are_spread_solid(alloc: Global, points: &[Point]) -> bool
    requires points { AreSizedPoints points.now }
    ensures { IsTrue result → IsFlat (dimension_of points.now) points.now → ⊥ }
{
    match spread_points(alloc, points) {
        Ok(spread) => flat_function(&spread).is_none(),
        Err(_) => false,
    }
}
