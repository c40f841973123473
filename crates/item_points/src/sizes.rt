//! The limit on the size of points.

ghost use Rattle.std.specs.Prelude.{◌≡◌, ◌<◌, None, IfSome};
ghost use Rattle.lattice_theory.specs.Size.{size};
ghost use Rattle.lattice_core.specs.Dimensions.{dimension_of};
ghost use Rattle.lattice_core.specs.Limits.{size_limit_of, IsSized};
ghost use Rattle.lattice_core.specs.PointLists.{ArePoints};

use lattice_core::{Point, size_limit, size_of};

/// The size of points of one dimension, where it is above the limit of their dimension. There is at least one point.
pub(crate) fn size_above_limit(points: &[Point]) -> Option<u128>
    requires { ArePoints points.now }
    ensures told { IfSome result (λ told. told ≡ size (dimension_of points.now) points.now) }
    ensures large { IfSome result (λ told. size_limit_of (dimension_of points.now) < size (dimension_of points.now) points.now) }
    ensures within { result ≡ None → IsSized (dimension_of points.now) points.now }
{
    let n = points[0].dim();
    let size = size_of(n, points);
    if size > size_limit(n) as u128 {
        return Some(size);
    }
    None
}
