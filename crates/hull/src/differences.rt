//! Differences of points, and the kernel of those of a list.

ghost use Rattle.std.specs.Prelude.{◌≡◌, ◌+◌, ◌^◌, ◌<◌, ◌≤◌, length, nat_abs};
ghost use Rattle.std.specs.List.{All};
ghost use Rattle.lattice_theory.specs.Size.{absolute_sum};
ghost use Rattle.lattice_core.specs.PointLists.{AreSizedPoints};
ghost use Rattle.lattice_core.specs.Dimensions.{dimension_of};
ghost use Rattle.hull.specs.steps.Differences.{difference, differences};
ghost use Rattle.hull.specs.steps.Kernels.{IsPrimitiveKernel};

use crate::kernel::{kernel_of_none, kernel_with};
use crate::member::KernelMember;
use arrayvec::ArrayVec;
use lattice_core::{MOST_COORDINATES, Point};

/// The difference of two points of one dimension.
pub(crate) fn point_difference(p: &Point, q: &Point) -> ArrayVec<i64, MOST_COORDINATES>
    requires same { length p.now ≡ length q.now }
    requires small_p { absolute_sum p.now ≤ 2 ^ 30 }
    requires small_q { absolute_sum q.now ≤ 2 ^ 30 }
    ensures { result.items ≡ difference p.now q.now }
{
    let mut entries = ArrayVec::new();
    for i in 0..p.dim() {
        entries.push(p.entry(i) - q.entry(i));
    }
    entries
}

/// The kernel of the differences of the other points and the first. Where it has no member left no more points are needed.
pub(crate) fn kernel_of(points: &[Point]) -> ArrayVec<KernelMember, MOST_COORDINATES>
    requires points { AreSizedPoints points.now }
    ensures kernel { IsPrimitiveKernel (dimension_of points.now) (differences points.now) result.items }
    ensures entries { All (λ k. All (λ a. nat_abs a < 2 ^ 63) k.vector) result.items }
    ensures count { dimension_of points.now + 1 ≤ length result.items + length points.now }
{
    let first = &points[0];
    let mut kernel = kernel_of_none(first.dim());
    for p in &points[1..] {
        if !kernel.is_empty() {
            kernel = kernel_with(kernel, point_difference(p, first).as_slice());
        }
    }
    kernel
}
