//! The function through a point that two functions combine to.
ghost use Rattle.std.specs.Prelude.{◌≡◌, ℕ, ◌^◌, ◌<◌, ◌≤◌, length, neg_ℤ, pos, ◌+ℤ◌, ◌*ℤ◌, nat_abs};
ghost use Rattle.std.specs.List.{All};
ghost use Rattle.lattice_theory.specs.Vector.{dot, entry};
ghost use Rattle.lattice_theory.specs.Affine.{Affine, value};
ghost use Rattle.lattice_theory.specs.Size.{absolute_sum};
ghost use Rattle.lattice_theory.specs.Combinations.{IsCombinationAt};
ghost use Rattle.lattice_core.specs.Combine.{AreOpposite, HasFixedCombination, IsSmallAt};
ghost use Rattle.lattice_core.specs.CombineSteps.{IsCrossSum};
ghost use Rattle.lattice_core.specs.declared.limits.TheConstants.{MOST_COORDINATES};

use crate::{Functional, MOST_COORDINATES, Point, narrowed, pair, primitive};
use arrayvec::ArrayVec;

/// The function with a normal of greatest common divisor 1 that vanishes at `p` and is a positive rational combination of `f` and `g`, whose
/// values at `p` have opposite signs. For n coordinates, 1 to 6, and S the size limit of n, the entries of both normals are at most (2S)^(n-1)
/// and the values at `p` at most (2S)^n, in absolute value; n points of a size of at most S fix the answer, so the same holds for its entries.
/// The point itself may have any size.
pub fn combine(f: &Functional, g: &Functional, p: &Point) -> Functional
    requires opposite { AreOpposite (value f.now p.now) (value g.now p.now) }
    requires left { IsSmallAt p.now f.now }
    requires right { IsSmallAt p.now g.now }
    requires fixed { HasFixedCombination f.now g.now p.now }
    ensures { IsCombinationAt f.now g.now p.now result }
{
    Functional::through(&combined_normal(f, g, p), p.entries())
}

/// The combination's normal.
fn combined_normal(f: &Functional, g: &Functional, p: &Point) -> ArrayVec<i64, MOST_COORDINATES>
    requires opposite { AreOpposite (value f.now p.now) (value g.now p.now) }
    requires left { IsSmallAt p.now f.now }
    requires right { IsSmallAt p.now g.now }
    requires fixed { HasFixedCombination f.now g.now p.now }
    ensures normal { (h : Affine) → IsCombinationAt f.now g.now p.now h → result.items ≡ h.normal }
    ensures small { absolute_sum result.items ≤ 2 ^ 60 }
{
    match primitive(&cross_sum(f, g, p)) {
        Some(normal) => narrowed(&normal),
        None => unreachable!(),
    }
}

/// The sum of the two normals, each times the absolute value of the other function at the point.
fn cross_sum(f: &Functional, g: &Functional, p: &Point) -> ArrayVec<i128, MOST_COORDINATES>
    requires left { IsSmallAt p.now f.now }
    requires right { IsSmallAt p.now g.now }
    ensures length { length result.items ≡ length p.now }
    ensures least { 1 ≤ length result.items }
    ensures most { length result.items ≤ MOST_COORDINATES }
    ensures entries { IsCrossSum f.now g.now p.now result.items }
    ensures small { All (λ x. nat_abs x < 2 ^ 127) result.items }
{
    let left = absolute_value(g, p);
    let right = absolute_value(f, p);
    sum_of_multiples(left, f.normal(), right, g.normal())
}

/// The absolute value of a small function at a point of any size.
fn absolute_value(f: &Functional, p: &Point) -> i128
    requires { IsSmallAt p.now f.now }
    ensures { result ≡ pos (nat_abs (value f.now p.now)) }
{
    let pairing = pair(p.entries(), f.normal());
    (pairing + f.constant()).abs()
}

/// A multiple of the first vector and a multiple of the second, added.
fn sum_of_multiples(
    left: i128,
    a: &[i64],
    right: i128,
    b: &[i64],
) -> ArrayVec<i128, MOST_COORDINATES>
    requires same_length { length a.now ≡ length b.now }
    requires most { length a.now ≤ MOST_COORDINATES }
    requires first { All (λ x. nat_abs (left *ℤ x) < 2 ^ 126) a.now }
    requires second { All (λ x. nat_abs (right *ℤ x) < 2 ^ 126) b.now }
    ensures length { length result.items ≡ length a.now }
    ensures entries { (i : ℕ) → entry result.items i ≡ left *ℤ entry a.now i +ℤ right *ℤ entry b.now i }
    ensures small { All (λ x. nat_abs x < 2 ^ 127) result.items }
{
    let mut sums = ArrayVec::new();
    for i in 0..a.len() {
        sums.push(sum_of_products(left, i128::from(a[i]), right, i128::from(b[i])));
    }
    sums
}

/// Two products, added.
#[inline]
fn sum_of_products(left: i128, a: i128, right: i128, b: i128) -> i128
    requires first { nat_abs (left *ℤ a) < 2 ^ 126 }
    requires second { nat_abs (right *ℤ b) < 2 ^ 126 }
    ensures value { result ≡ left *ℤ a +ℤ right *ℤ b }
    ensures bound { nat_abs result < 2 ^ 127 }
{
    left * a + right * b
}

#[cfg(test)]
mod tests {
    use super::*;

    #[test]
    fn combines_two_functions_at_a_point(rt: HostRuntime) {
        let f = Functional::new(&[1, 0], 1).expect(&rt, "two entries");
        let g = Functional::new(&[-1, -1], 1).expect(&rt, "two entries");
        let p = Point::new(&[2, 2]).expect(&rt, "two entries");
        let h = combine(&f, &g, &p);
        assert_eq!(rt; h.normal(), [0, -1].as_slice());
        assert_eq!(rt; h.constant(), 2);
    }
}
