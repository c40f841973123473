//! Whether points are flat.

ghost use Rattle.std.specs.Prelude.{◌<◌, MatchOption};
ghost use Rattle.lattice_theory.specs.Facet.{IsFlat, IsFlatFunction};
ghost use Rattle.lattice_core.specs.Dimensions.{dimension_of};
ghost use Rattle.lattice_core.specs.PointLists.{AreSizedPoints};

use crate::differences::kernel_of;
use crate::functions::function_at;
use lattice_core::{Functional, Point};

/// The flat function of points, of which there is at least one, with 1 to 6 coordinates and within the size limit: of the functions that vanish
/// on them, the one with a normal of greatest common divisor 1 whose last entry that isn't 0 stands earliest and is positive. It is `None`
/// exactly where the points aren't flat. This project's own.
pub fn flat_function(points: &[Point]) -> Option<Functional>
    requires points { AreSizedPoints points.now }
    ensures { MatchOption result (IsFlat (dimension_of points.now) points.now → ⊥) (IsFlatFunction (dimension_of points.now) points.now) }
{
    let kernel = kernel_of(points);
    let members = kernel.as_slice();
    if members.is_empty() {
        return None;
    }
    Some(function_at(members[0].vector(), &points[0]))
}
