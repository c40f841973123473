//! Two polynomials, put in at v/u and uv, times a sum of powers.
ghost use Rattle.std.specs.Prelude.{◌≡◌, ℕ, ◌^◌, ◌/◌, ◌%◌, ◌<◌, ◌≤◌, pos, negsuc, ◌+ℤ◌, ◌-ℤ◌, ◌*ℤ◌, nat_abs, length};
ghost use Rattle.lattice_theory.specs.Vector.{entry};
ghost use Rattle.polynomial_theory.specs.Series.{times_at_product};
ghost use Rattle.small_poly.specs.Sizes.{HasSmallTerms};
ghost use Rattle.small_poly.specs.Tables.{laurent_of, unit_of, times_both};

use crate::lists::product_of;
use crate::terms::{read, signed};

/// Adds the coefficients of left(v/u) right(uv) inner to those of a list, or subtracts them.
pub(crate) fn add_products(
    sums: &mut [i128],
    negative: bool,
    left: &[i128],
    right: &[i128],
    inner: &[i128],
)
    requires long { length sums.old ≡ 289 }
    requires inner { length inner.now ≡ 289 }
    requires first { HasSmallTerms (pos 1) (entry right.now) (laurent_of inner.now) }
    requires second { HasSmallTerms (negsuc 0) (entry left.now) (times_at_product (entry right.now) (laurent_of inner.now)) }
    requires small { (k : ℕ) → k < 289 → nat_abs (entry sums.old k +ℤ unit_of negative *ℤ times_both (entry left.now) (entry right.now)
        (laurent_of inner.now) (pos (k / 17)) (k % 17)) < 2 ^ 126 }
    ensures long { length sums.new ≡ 289 }
    ensures value { (k : ℕ) → k < 289 → entry sums.new k ≡ entry sums.old k +ℤ unit_of negative *ℤ times_both (entry left.now) (entry right.now)
        (laurent_of inner.now) (pos (k / 17)) (k % 17) }
{
    for k in 0..sums.len() {
        sums[k] += signed(negative, with_both(left, right, inner, k / 17, k % 17));
    }
}

/// The coefficient of u^p v^q in left(v/u) right(uv) inner.
fn with_both(left: &[i128], right: &[i128], inner: &[i128], p: usize, q: usize) -> i128
    requires power { p ≤ 16 }
    requires second_power { q ≤ 16 }
    requires inner { length inner.now ≡ 289 }
    requires first { HasSmallTerms (pos 1) (entry right.now) (laurent_of inner.now) }
    requires second { HasSmallTerms (negsuc 0) (entry left.now) (times_at_product (entry right.now) (laurent_of inner.now)) }
    ensures value { result ≡ times_both (entry left.now) (entry right.now) (laurent_of inner.now) (pos p) q }
    ensures size { nat_abs result ≤ 2 ^ 126 }
{
    let mut sum = 0_i128;
    for a in 0..q + 1 {
        sum += product_of(read(left, a), with_right(right, inner, p + a, q - a));
    }
    sum
}

/// The coefficient of u^p v^q in right(uv) inner.
fn with_right(right: &[i128], inner: &[i128], p: usize, q: usize) -> i128
    requires power { p ≤ 32 }
    requires second_power { q ≤ 16 }
    requires inner { length inner.now ≡ 289 }
    requires first { HasSmallTerms (pos 1) (entry right.now) (laurent_of inner.now) }
    ensures { result ≡ times_at_product (entry right.now) (laurent_of inner.now) (pos p) q }
{
    let mut sum = 0_i128;
    for a in 0..q + 1 {
        sum += product_of(read(right, a), shifted(inner, p, a, q - a));
    }
    sum
}

/// The coefficient of u^(p - a) v^b; 0 where it has none.
fn shifted(inner: &[i128], p: usize, a: usize, b: usize) -> i128
    requires power { p ≤ 32 }
    requires second_power { b ≤ 16 }
    requires inner { length inner.now ≡ 289 }
    ensures { result ≡ laurent_of inner.now (pos p -ℤ pos 1 *ℤ pos a) b }
{
    if a <= p {
        read(inner, 17 * (p - a) + b)
    } else {
        0
    }
}
