//! Certificates for.
ghost use Rattle.std.specs.Prelude.{◌≡◌, ◌≢◌, ℕ, ◌↔◌, ◌^◌, ◌<◌, ◌≤◌, ◌≤ℤ◌, ◌+ℤ◌, ◌*ℤ◌, length, pos, nat_abs, IsTrue};
ghost use Rattle.std.specs.List.{All};
ghost use Rattle.lattice_theory.specs.Vector.{HaveDimension, dot};
ghost use Rattle.lattice_theory.specs.Size.{absolute_sum};
ghost use Rattle.lattice_core.specs.declared.limits.TheConstants.{MOST_COORDINATES};
ghost use Rattle.interior_point_theory.specs.Certificates.{entries_at, integer_sum};
ghost use Rattle.weight_certificates.specs.Surroundings.{AreWithin, IsSurrounding, IsInverseAt, IsBalancedAt, chosen, vectors, multiples};
ghost use Rattle.weight_certificates.specs.declared.surroundings.TheConstants.{MOST_SIZE, MOST_COUNT};

use crate::columns::{chosen_column, column_sum, multiple_column, vector_column};
use lattice_core::{Point, pair};

/// The largest sum of the absolute values of a point's entries: 2^20.
pub const MOST_SIZE: u64 = 1_048_576;

/// The most points: 2^40.
pub const MOST_COUNT: usize = 1_099_511_627_776;

/// One of the points that a surrounding chooses.
#[derive(Debug, Drop)]
pub struct Corner {
    /// The place of the point in the list of all.
    pub place: usize,
    /// Its vector of the inverse: it pairs to 0 with the other chosen points.
    pub vector: Point,
    /// How many times the point is taken besides.
    pub multiple: i64,
}

/// Whether each corner chooses one of the points, has a vector with an entry for each corner, and isn't taken a negative number of times.
fn are_corners(points: &[Point], corners: &[Corner]) -> bool
    ensures { IsTrue result ↔ (AreWithin points.now corners.now × All (λ c. length c.vector ≡ length corners.now) corners.now
        × All (λ c. pos 0 ≤ℤ c.multiple) corners.now) }
{
    corners.iter().all(|c| c.place < points.len()
        && c.vector.dim() == corners.len()
        && c.multiple >= 0)
}

/// Whether the corners' vectors make the k-th unit vector of the chosen points, times the divisor.
fn is_inverse_at(points: &[Point], corners: &[Corner], divisor: i64, k: usize) -> bool
    requires few { length corners.now ≤ MOST_COORDINATES }
    requires within { AreWithin points.now corners.now }
    requires dimension { HaveDimension (length corners.now) points.now }
    requires vectors { All (λ c. length c.vector ≡ length corners.now) corners.now }
    requires small { All (λ y. absolute_sum y ≤ MOST_SIZE) points.now }
    requires place { k < length corners.now }
    ensures { IsTrue result ↔ IsInverseAt points.now corners.now divisor k }
{
    let row = vector_column(corners, k);
    for j in 0..corners.len() {
        let wanted = if j == k { i128::from(divisor) } else { 0 };
        if pair(&row, &chosen_column(points, corners, j)) != wanted {
            return false;
        }
    }
    true
}

/// A number taken so many times, and one more.
fn multiple_and(times: u64, a: i64, more: i128) -> i128
    requires number { nat_abs a ≤ 2 ^ 60 }
    requires small { nat_abs more ≤ 2 ^ 100 }
    ensures { result ≡ pos times *ℤ a +ℤ more }
{
    i128::from(times) * i128::from(a) + more
}

/// Whether all points, each taken so many times, and the chosen ones, each taken besides as its multiple says, have the sum 0 at the place `j`.
fn is_balanced_at(points: &[Point], corners: &[Corner], times: u64, j: usize) -> bool
    requires few { length corners.now ≤ MOST_COORDINATES }
    requires within { AreWithin points.now corners.now }
    requires dimension { HaveDimension (length corners.now) points.now }
    requires small { All (λ y. absolute_sum y ≤ MOST_SIZE) points.now }
    requires count { length points.now ≤ MOST_COUNT }
    requires place { j < length corners.now }
    ensures { IsTrue result ↔ IsBalancedAt points.now corners.now times j }
{
    let more = pair(
        &multiple_column(corners),
        &chosen_column(points, corners, j),
    );
    multiple_and(times, column_sum(points, j), more) == 0
}

/// Whether corners, of which there are as many as coordinates, with a divisor and a number of times surround the origin: the chosen points have an
/// inverse up to the divisor, which isn't 0, and all points, each taken so many times, which is at least once, together with the multiples of the
/// chosen ones, none of them negative, have the sum 0. The sums of the absolute values of a point's entries are at most `MOST_SIZE`, and there are
/// at most `MOST_COUNT` points. This project's own.
pub fn is_surrounding(points: &[Point], corners: &[Corner], divisor: i64, times: u64) -> bool
    requires few { length corners.now ≤ MOST_COORDINATES }
    requires dimension { HaveDimension (length corners.now) points.now }
    requires small { All (λ y. absolute_sum y ≤ MOST_SIZE) points.now }
    requires count { length points.now ≤ MOST_COUNT }
    ensures { IsTrue result ↔ IsSurrounding points.now corners.now divisor times }
{
    if divisor == 0 || times == 0 || !are_corners(points, corners) {
        return false;
    }
    for k in 0..corners.len() {
        if !is_inverse_at(points, corners, divisor, k)
            || !is_balanced_at(points, corners, times, k)
        {
            return false;
        }
    }
    true
}
