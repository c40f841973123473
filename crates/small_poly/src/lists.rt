//! Lists of coefficients.
ghost use Rattle.std.specs.Prelude.{◌≡◌, ℕ, nat_lt, cond, ◌^◌, ◌<◌, ◌≤◌, pos, ◌+ℤ◌, ◌-ℤ◌, ◌*ℤ◌, nat_abs, length};
ghost use Rattle.lattice_theory.specs.Vector.{entry};
ghost use Rattle.polynomial_theory.specs.Series.{product};
ghost use Rattle.small_poly.specs.Sizes.{HasSmallSums};

/// Adds to each coefficient that of another list, as long.
pub(crate) fn add_each(sums: &mut [i128], others: &[i128])
    requires long { length others.now ≡ length sums.old }
    requires small { (k : ℕ) → nat_abs (entry sums.old k +ℤ entry others.now k) < 2 ^ 126 }
    ensures long { length sums.new ≡ length sums.old }
    ensures value { (k : ℕ) → entry sums.new k ≡ entry sums.old k +ℤ entry others.now k }
{
    for i in 0..sums.len() {
        sums[i] += others[i];
    }
}

/// Subtracts from each coefficient that of another list, as long.
pub(crate) fn subtract_each(sums: &mut [i128], others: &[i128])
    requires long { length others.now ≡ length sums.old }
    requires small { (k : ℕ) → nat_abs (entry sums.old k -ℤ entry others.now k) < 2 ^ 126 }
    ensures long { length sums.new ≡ length sums.old }
    ensures value { (k : ℕ) → entry sums.new k ≡ entry sums.old k -ℤ entry others.now k }
{
    for i in 0..sums.len() {
        sums[i] -= others[i];
    }
}

/// Makes the coefficients from a place on 0.
pub(crate) fn clear_from(coefficients: &mut [i128], start: usize)
    ensures long { length coefficients.new ≡ length coefficients.old }
    ensures value { (k : ℕ) → entry coefficients.new k ≡ cond (nat_lt k start) (entry coefficients.old k) (pos 0) }
{
    for i in start..coefficients.len() {
        coefficients[i] = 0;
    }
}

/// The product of two coefficients.
pub(crate) fn product_of(a: i128, b: i128) -> i128
    requires { nat_abs (a *ℤ b) ≤ 2 ^ 126 }
    ensures { result ≡ a *ℤ b }
{
    a * b
}

/// The coefficient of t^k in the product.
pub(crate) fn product_coefficient(a: &[i128], b: &[i128], k: usize) -> i128
    requires first { k < length a.now }
    requires second { k < length b.now }
    requires small { HasSmallSums (entry a.now) (entry b.now) }
    ensures { result ≡ product (entry a.now) (entry b.now) k }
{
    let mut sum = 0_i128;
    for i in 0..k + 1 {
        sum += product_of(a[i], b[k - i]);
    }
    sum
}
