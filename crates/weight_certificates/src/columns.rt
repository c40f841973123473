//! The entries of points at one place.
ghost use Rattle.std.specs.Prelude.{◌≡◌, ◌*◌, ◌^◌, ◌<◌, ◌≤◌, length, nat_abs};
ghost use Rattle.std.specs.List.{All};
ghost use Rattle.lattice_theory.specs.Vector.{HaveDimension};
ghost use Rattle.lattice_theory.specs.Size.{absolute_sum};
ghost use Rattle.lattice_core.specs.declared.limits.TheConstants.{MOST_COORDINATES};
ghost use Rattle.interior_point_theory.specs.Certificates.{entries_at, integer_sum};
ghost use Rattle.weight_certificates.specs.Surroundings.{AreWithin, chosen, vectors, multiples};
ghost use Rattle.weight_certificates.specs.declared.surroundings.TheConstants.{MOST_SIZE, MOST_COUNT};

use crate::Corner;
use arrayvec::ArrayVec;
use lattice_core::{MOST_COORDINATES, Point};

/// The entries of the chosen points at the place `j`.
pub(crate) fn chosen_column(
    points: &[Point],
    corners: &[Corner],
    j: usize,
) -> ArrayVec<i64, MOST_COORDINATES>
    requires few { length corners.now ≤ MOST_COORDINATES }
    requires within { AreWithin points.now corners.now }
    requires dimension { HaveDimension (length corners.now) points.now }
    requires small { All (λ y. absolute_sum y ≤ MOST_SIZE) points.now }
    requires place { j < length corners.now }
    ensures entries { result.items ≡ entries_at j (chosen points.now corners.now) }
    ensures small { absolute_sum result.items ≤ 2 ^ 30 }
{
    let mut column = ArrayVec::new();
    for corner in corners {
        column.push(points[corner.place].entry(j));
    }
    column
}

/// The entries of the corners' vectors at the place `k`.
pub(crate) fn vector_column(corners: &[Corner], k: usize) -> ArrayVec<i64, MOST_COORDINATES>
    requires few { length corners.now ≤ MOST_COORDINATES }
    requires place { All (λ c. k < length c.vector) corners.now }
    ensures { result.items ≡ entries_at k (vectors corners.now) }
{
    let mut column = ArrayVec::new();
    for corner in corners {
        column.push(corner.vector.entry(k));
    }
    column
}

/// The corners' multiples.
pub(crate) fn multiple_column(corners: &[Corner]) -> ArrayVec<i64, MOST_COORDINATES>
    requires { length corners.now ≤ MOST_COORDINATES }
    ensures { result.items ≡ multiples corners.now }
{
    let mut column = ArrayVec::new();
    for corner in corners {
        column.push(corner.multiple);
    }
    column
}

/// The sum of the entries of all points at the place `j`.
pub(crate) fn column_sum(points: &[Point], j: usize) -> i64
    requires place { All (λ y. j < length y) points.now }
    requires small { All (λ y. absolute_sum y ≤ MOST_SIZE) points.now }
    requires count { length points.now ≤ MOST_COUNT }
    ensures sum { result ≡ integer_sum (entries_at j points.now) }
    ensures bound { nat_abs result ≤ MOST_COUNT * MOST_SIZE }
{
    let mut sum = 0;
    for p in points {
        sum += p.entry(j);
    }
    sum
}
