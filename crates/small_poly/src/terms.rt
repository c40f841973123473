//! Polynomials that are put in at v/u and uv.
ghost use Rattle.std.specs.Prelude.{◌≡◌, ℕ, ◌^◌, ◌/◌, ◌%◌, ◌<◌, ◌≤◌, pos, ◌+ℤ◌, ◌*ℤ◌, nat_abs, length};
ghost use Rattle.lattice_theory.specs.Vector.{entry};
ghost use Rattle.small_poly.specs.Tables.{unit_of, term};
ghost use Rattle.small_poly.specs.TermSteps.{IsPlace};

use crate::lists::product_of;

/// Adds the coefficients of u^power left(v/u) right(uv) to those of a list, or subtracts them.
pub(crate) fn add_terms(
    sums: &mut [i128],
    negative: bool,
    power: usize,
    left: &[i128],
    right: &[i128],
)
    requires long { length sums.old ≡ 289 }
    requires power { power ≤ 16 }
    requires products { (a b : ℕ) → nat_abs (entry left.now a *ℤ entry right.now b) ≤ 2 ^ 126 }
    requires small { (k : ℕ) → k < 289 → nat_abs (entry sums.old k +ℤ term (unit_of negative) power (entry left.now) (entry right.now) (pos (k / 17)) (k % 17)) < 2 ^ 126 }
    ensures long { length sums.new ≡ 289 }
    ensures value { (k : ℕ) → k < 289 → entry sums.new k ≡ entry sums.old k +ℤ term (unit_of negative) power (entry left.now) (entry right.now) (pos (k / 17)) (k % 17) }
{
    for k in 0..sums.len() {
        sums[k] += term_at(negative, power, left, right, k / 17, k % 17);
    }
}

/// The coefficient of u^p v^q: the one product of which it is made, or 0.
fn term_at(negative: bool, power: usize, left: &[i128], right: &[i128], p: usize, q: usize) -> i128
    requires power { power ≤ 16 }
    requires first { p ≤ 16 }
    requires second { q ≤ 16 }
    requires products { (a b : ℕ) → nat_abs (entry left.now a *ℤ entry right.now b) ≤ 2 ^ 126 }
    ensures { result ≡ term (unit_of negative) power (entry left.now) (entry right.now) (pos p) q }
{
    match place_of(power, p, q) {
        None => 0,
        Some(place) => signed(
            negative,
            product_of(read(left, place), read(right, q - place)),
        ),
    }
}

/// The a with a + b = q and p + a = r + b.
fn place_of(r: usize, p: usize, q: usize) -> Option<usize>
    requires power { r ≤ 16 }
    requires second { q ≤ 16 }
    ensures { IsPlace r p q result }
{
    let high = r + q;
    if high < p {
        return None;
    }
    if (high - p) % 2 == 1 {
        return None;
    }
    let place = (high - p) / 2;
    if place > q {
        return None;
    }
    Some(place)
}

/// The number, or its negative.
pub(crate) fn signed(negative: bool, number: i128) -> i128
    requires { nat_abs number ≤ 2 ^ 126 }
    ensures { result ≡ unit_of negative *ℤ number }
{
    if negative { -number } else { number }
}

/// The coefficient at a place; one that is missing is 0.
pub(crate) fn read(coefficients: &[i128], place: usize) -> i128
    ensures { result ≡ entry coefficients.now place }
{
    if place < coefficients.len() {
        coefficients[place]
    } else {
        0
    }
}
