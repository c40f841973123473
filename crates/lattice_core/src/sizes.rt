//! The size of points.
ghost use Rattle.std.specs.Prelude.{◌≡◌, ◌<◌, ◌≤◌, ◌^◌, length};
ghost use Rattle.std.specs.List.{All};
ghost use Rattle.lattice_theory.specs.Vector.{HaveDimension};
ghost use Rattle.lattice_theory.specs.Size.{reach, size};
ghost use Rattle.lattice_core.specs.declared.limits.TheConstants.{MOST_COORDINATES};

use crate::Point;

/// The size of points with `n` coordinates, `n` at most 6: the sum over the coordinates of the largest absolute value. It is at most 6 times
/// 2^63, and 0 where there is no point.
pub fn size_of(n: usize, points: &[Point]) -> u128
    requires dimension { HaveDimension n points.now }
    requires most { n ≤ MOST_COORDINATES }
    ensures { result ≡ size n points.now }
{
    let mut sum = 0_u128;
    for i in 0..n {
        sum += u128::from(reach_of(i, points));
    }
    sum
}

/// The largest absolute value in the coordinate `i`, which is 0 where there is no point.
fn reach_of(i: usize, points: &[Point]) -> u64
    requires { All (λ p. i < length p) points.now }
    ensures value { result ≡ reach points.now i }
    ensures bound { result ≤ 2 ^ 63 }
{
    let mut largest = 0;
    for p in points {
        largest = largest.max(p.entry(i).unsigned_abs());
    }
    largest
}

#[cfg(test)]
mod tests {
    use super::*;
    use std::test::Fail;

    #[test]
    fn adds_the_largest_absolute_values(rt: HostRuntime) -> Result<(), Fail> {
        let mut points = Vec::new(rt.alloc());
        for (first, second) in [(-3, 1), (2, 4)] {
            points.push(Point::new(&[first, second]).expect(&rt, "two entries"))?;
        }
        assert_eq!(rt; size_of(2, &points), 7);
        Ok(())
    }
}
