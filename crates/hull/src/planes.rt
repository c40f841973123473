//! The hyperplane through as many points as there are coordinates.

ghost use Rattle.std.specs.Prelude.{◌≡◌, ◌↔◌, ◌<◌, length, IsNone, IfSome};
ghost use Rattle.lattice_core.specs.Dimensions.{dimension_of};
ghost use Rattle.hull.specs.Hyperplanes.{IsHyperplane, HasTwoFunctions};
ghost use Rattle.lattice_core.specs.PointLists.{AreSizedPoints};

use crate::differences::kernel_of;
use crate::functions::{function_at, opposite, starts_positive};
use lattice_core::{Functional, Point};

/// The hyperplane through n points with n coordinates, n from 1 to 6, within the size limit: the function that vanishes at them, with a normal
/// of greatest common divisor 1 whose first entry that isn't 0 is positive. Every function that vanishes at the points is a multiple of it. It
/// is `None` exactly where two functions vanish at the points that aren't multiples of each other. Source: math/0204356, section 2; the sign is
/// this project's own.
pub fn hyperplane(points: &[Point]) -> Option<Functional>
    requires points { AreSizedPoints points.now }
    requires count { length points.now ≡ dimension_of points.now }
    ensures none { IsNone result ↔ HasTwoFunctions (dimension_of points.now) points.now }
    ensures function { IfSome result (IsHyperplane (dimension_of points.now) points.now) }
{
    let kernel = kernel_of(points);
    let members = kernel.as_slice();
    if members.len() != 1 {
        return None;
    }
    let function = function_at(members[0].vector(), &points[0]);
    if starts_positive(function.normal()) {
        Some(function)
    } else {
        Some(opposite(&function))
    }
}
