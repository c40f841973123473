//! h* from numbers of lattice points.
ghost use Rattle.std.specs.Prelude.{◌≡◌, ℕ, ◌^◌, ◌≤◌, pos, ◌≤ℤ◌, nat_abs, slice_index_or};
ghost use Rattle.lattice_theory.specs.Vector.{entry};
ghost use Rattle.stringy_theory.specs.HStar.{h_star};
ghost use Rattle.stringy.specs.Numbers.{series_from};

use crate::rows::{clear_from, take_all_differences};
use small_poly::Poly1;

/// Makes h* of the numbers of lattice points of degree 0, 1 and so on. They are at most 2^21.
pub(crate) fn make_star(row: &mut [i64; 9], rank: usize)
    requires rank { rank ≤ 8 }
    requires counts { (s : ℕ) → pos 0 ≤ℤ entry row.old s }
    requires small { (s : ℕ) → nat_abs (entry row.old s) ≤ 2 ^ 21 }
    ensures value { (k : ℕ) → entry row.new k ≡ h_star rank (entry row.old) k }
    ensures small { (k : ℕ) → nat_abs (entry row.new k) ≤ 2 ^ 28 }
{
    take_all_differences(row, rank);
    clear_from(row, rank.max(1));
}

/// A polynomial by its coefficients.
pub(crate) fn polynomial_of(row: &[i64; 9]) -> Poly1
    ensures { (k : ℕ) → entry result k ≡ entry row.now k }
{
    let mut polynomial = Poly1::zero();
    for k in 0..9 {
        polynomial.set(k, i128::from(row[k]));
    }
    polynomial
}

/// The first numbers, up to nine; those that are missing are 0.
fn first_of(numbers: &[u64]) -> [i64; 9]
    requires { (s : ℕ) → slice_index_or numbers.now s 0 ≤ 2 ^ 21 }
    ensures value { (s : ℕ) → s ≤ 8 → entry result s ≡ series_from numbers.now s }
    ensures counts { (s : ℕ) → pos 0 ≤ℤ entry result s }
    ensures small { (s : ℕ) → nat_abs (entry result s) ≤ 2 ^ 21 }
{
    let mut row = [0; 9];
    for s in 0..numbers.len().min(9) {
        row[s] = numbers[s] as i64;
    }
    row
}

/// h* of a face of a cone: the polynomial that its numbers of lattice points of degree 0, 1 and so on make, by the dimension of the face, at most 8.
/// Numbers that are missing are 0, and none is above 2^21. Source: alg-geom/9509009.
pub fn h_star_of(numbers: &[u64], rank: u32) -> Poly1
    requires rank { rank ≤ 8 }
    requires small { (s : ℕ) → slice_index_or numbers.now s 0 ≤ 2 ^ 21 }
    ensures { (k : ℕ) → entry result k ≡ h_star rank (series_from numbers.now) k }
{
    let mut row = first_of(numbers);
    make_star(&mut row, rank as usize);
    polynomial_of(&row)
}
