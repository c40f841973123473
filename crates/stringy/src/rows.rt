//! Rows of numbers: their differences, and products of two.
ghost use Rattle.std.specs.Prelude.{◌≡◌, ℕ, nat_lt, cond, pos, ◌+◌, ◌*◌, ◌^◌, ◌<◌, ◌≤◌, ℤ, ◌+ℤ◌, ◌-ℤ◌, ◌*ℤ◌, nat_abs, length};
ghost use Rattle.lattice_theory.specs.Vector.{entry};
ghost use Rattle.polynomial_theory.specs.Series.{product};
ghost use Rattle.stringy_theory.specs.HStar.{differences, differences_of};
ghost use Rattle.small_poly.specs.Tables.{unit_of};

/// A number less another one.
fn difference(number: i64, before: i64) -> i64
    requires number { nat_abs number ≤ 2 ^ 40 }
    requires before { nat_abs before ≤ 2 ^ 40 }
    ensures { result ≡ number -ℤ before }
{
    number - before
}

/// Takes from each number the one before it.
fn take_differences(row: &mut [i64])
    requires small { (s : ℕ) → nat_abs (entry row.old s) ≤ 2 ^ 40 }
    ensures long { length row.new ≡ length row.old }
    ensures value { (s : ℕ) → s < length row.old → entry row.new s ≡ differences (entry row.old) s }
{
    let mut before = 0;
    for s in 0..row.len() {
        let number = row[s];
        row[s] = difference(number, before);
        before = number;
    }
}

/// Does so a number of times. The numbers are at most 2^21 in size.
pub(crate) fn take_all_differences(row: &mut [i64], times: usize)
    requires small { (s : ℕ) → nat_abs (entry row.old s) ≤ 2 ^ 21 }
    requires few { times ≤ 8 }
    ensures long { length row.new ≡ length row.old }
    ensures value { (s : ℕ) → s < length row.old → entry row.new s ≡ differences_of times (entry row.old) s }
{
    for time in 0..times {
        take_differences(row);
    }
}

/// Makes the numbers from a place on 0.
pub(crate) fn clear_from(row: &mut [i64], start: usize)
    ensures long { length row.new ≡ length row.old }
    ensures value { (k : ℕ) → entry row.new k ≡ cond (nat_lt k start) (entry row.old k) (pos 0) }
{
    for k in start..row.len() {
        row[k] = 0;
    }
}

/// The product of two coefficients.
fn product_of(first: i64, second: i64) -> i64
    requires first { nat_abs first ≤ 2 ^ 28 }
    requires second { nat_abs second ≤ 2 ^ 12 }
    ensures value { result ≡ first *ℤ second }
    ensures small { nat_abs result ≤ 2 ^ 40 }
{
    first * second
}

/// A coefficient with another one added, or subtracted.
fn changed(sum: i64, negative: bool, term: i64) -> i64
    requires sum { nat_abs sum ≤ 2 ^ 60 }
    requires term { nat_abs term ≤ 2 ^ 42 }
    ensures { result ≡ sum +ℤ unit_of negative *ℤ term }
{
    if negative { sum - term } else { sum + term }
}

/// The coefficient of t^k in the product of two polynomials, of which the second one has no degree above 3.
fn product_at(first: &[i64; 9], second: &[i64; 4], k: usize) -> i64
    requires place { k < 9 }
    requires first { (a : ℕ) → nat_abs (entry first.now a) ≤ 2 ^ 28 }
    requires second { (b : ℕ) → nat_abs (entry second.now b) ≤ 2 ^ 12 }
    ensures value { result ≡ product (entry first.now) (entry second.now) k }
    ensures small { nat_abs result ≤ 2 ^ 42 }
{
    let mut sum = 0_i64;
    for b in 0..(k + 1).min(4) {
        sum += product_of(first[k - b], second[b]);
    }
    sum
}

/// Adds the product of two polynomials to a third one, or subtracts it.
pub(crate) fn add_product(sums: &mut [i64; 9], negative: bool, first: &[i64; 9], second: &[i64; 4])
    requires first { (a : ℕ) → nat_abs (entry first.now a) ≤ 2 ^ 28 }
    requires second { (b : ℕ) → nat_abs (entry second.now b) ≤ 2 ^ 12 }
    requires small { (k : ℕ) → nat_abs (entry sums.old k) ≤ 2 ^ 60 }
    ensures { (k : ℕ) → k < 9 → entry sums.new k ≡ entry sums.old k +ℤ unit_of negative *ℤ product (entry first.now) (entry second.now) k }
{
    for k in 0..9 {
        sums[k] = changed(sums[k], negative, product_at(first, second, k));
    }
}
