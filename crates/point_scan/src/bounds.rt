//! Bounds of a polytope in a direction.

ghost use Rattle.std.specs.Prelude.{◌≡◌, ◌<◌, ◌≤◌, ◌^◌, length};
ghost use Rattle.std.specs.List.{All};
ghost use Rattle.lattice_theory.specs.Size.{absolute_sum};
ghost use Rattle.lattice_core.specs.declared.limits.TheConstants.{MOST_COORDINATES};
ghost use Rattle.point_scan.specs.ProjectionSteps.{IsBound};

use bit_rows::{BitRow, MOST_INDICES};
use lattice_core::{Functional, Point, pair};

/// A function that is nonnegative at all vertices, which of the first 128 of them it vanishes at, and the last coordinate that it speaks of.
#[derive(Drop)]
pub(crate) struct Bound {
    pub(crate) function: Functional,
    pub(crate) on: BitRow,
    pub(crate) end: usize,
}

/// The place of the last entry that isn't 0, or 0 where all are.
fn end_of(normal: &[i64]) -> usize {
    for k in (0..normal.len()).rev() {
        if normal[k] != 0 {
            return k;
        }
    }
    0
}

/// The bound with this normal. Its least value at the vertices is 0.
pub(crate) fn bound_at(normal: &[i64], vertices: &[Point]) -> Bound
    requires some { 0 < length vertices.now }
    requires dimension { All (λ p. length p ≡ length normal.now) vertices.now }
    requires small { All (λ p. absolute_sum p ≤ 2 ^ 33) vertices.now }
    ensures { IsBound (length normal.now) vertices.now result.function }
{
    let mut least = pair(normal, vertices[0].entries());
    let mut on = BitRow::empty();
    for i in 0..vertices.len() {
        let height = pair(normal, vertices[i].entries());
        if height < least {
            on = BitRow::empty();
        }
        least = least.min(height);
        if height == least && i < MOST_INDICES {
            on.add(i);
        }
    }
    match Functional::new(normal, -least) {
        Some(function) => Bound {
            function,
            on,
            end: end_of(normal),
        },
        None => unreachable!(),
    }
}
