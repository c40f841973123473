//! The pairing of two vectors.
ghost use Rattle.std.specs.Prelude.{◌≡◌, ◌⊎◌, ◌^◌, ◌≤◌, ◌*◌, ◌*ℤ◌, length, nat_abs};
ghost use Rattle.lattice_theory.specs.Vector.{dot};
ghost use Rattle.lattice_theory.specs.Size.{absolute_sum};
ghost use Rattle.lattice_core.specs.ValueWidthSteps.{HasNarrowSums};
ghost use Rattle.lattice_core.specs.declared.limits.TheConstants.{MOST_COORDINATES};

/// The sum of the products of the entries of two vectors of equal length, at most 6. The absolute values of the entries of the one or of the
/// other sum to at most 2^60. The answer is at most 2^63 times either sum in absolute value.
#[inline]
pub fn pair(a: &[i64], b: &[i64]) -> i128
    requires same_length { length a.now ≡ length b.now }
    requires most { length b.now ≤ MOST_COORDINATES }
    requires small { (absolute_sum a.now ≤ 2 ^ 60) ⊎ (absolute_sum b.now ≤ 2 ^ 60) }
    ensures value { result ≡ dot a.now b.now }
    ensures left { nat_abs result ≤ 2 ^ 63 * absolute_sum a.now }
    ensures right { nat_abs result ≤ 2 ^ 63 * absolute_sum b.now }
{
    match a.len() {
        1 => pair_of(a, b, 1),
        2 => pair_of(a, b, 2),
        3 => pair_of(a, b, 3),
        4 => pair_of(a, b, 4),
        5 => pair_of(a, b, 5),
        6 => pair_of(a, b, 6),
        count => pair_of(a, b, count),
    }
}

/// The same for vectors with so many entries. Where the number is written out, so are the products.
#[inline]
fn pair_of(a: &[i64], b: &[i64], count: usize) -> i128
    requires first { length a.now ≡ count }
    requires second { length b.now ≡ count }
    requires most { count ≤ MOST_COORDINATES }
    requires small { (absolute_sum a.now ≤ 2 ^ 60) ⊎ (absolute_sum b.now ≤ 2 ^ 60) }
    ensures value { result ≡ dot a.now b.now }
    ensures left { nat_abs result ≤ 2 ^ 63 * absolute_sum a.now }
    ensures right { nat_abs result ≤ 2 ^ 63 * absolute_sum b.now }
{
    let mut sum = 0_i128;
    for i in 0..count {
        sum += product(a[i], b[i]);
    }
    sum
}

/// The same in 64 bits, for vectors of any length, where no sum on the way needs more.
#[inline]
pub(crate) fn narrow_pair(a: &[i64], b: &[i64]) -> i64
    requires same_length { length a.now ≡ length b.now }
    requires small { HasNarrowSums a.now b.now }
    ensures { result ≡ dot a.now b.now }
{
    match a.len() {
        1 => narrow_pair_of(a, b, 1),
        2 => narrow_pair_of(a, b, 2),
        3 => narrow_pair_of(a, b, 3),
        4 => narrow_pair_of(a, b, 4),
        5 => narrow_pair_of(a, b, 5),
        6 => narrow_pair_of(a, b, 6),
        count => narrow_pair_of(a, b, count),
    }
}

/// The same for vectors with so many entries. Where the number is written out, so are the products.
#[inline]
pub(crate) fn narrow_pair_of(a: &[i64], b: &[i64], count: usize) -> i64
    requires first { length a.now ≡ count }
    requires second { length b.now ≡ count }
    requires small { HasNarrowSums a.now b.now }
    ensures { result ≡ dot a.now b.now }
{
    let mut sum = 0;
    for i in 0..count {
        sum += a[i] * b[i];
    }
    sum
}

#[inline]
fn product(a: i64, b: i64) -> i128
    ensures { result ≡ a *ℤ b }
{
    i128::from(a) * i128::from(b)
}

#[cfg(test)]
mod tests {
    use super::*;

    #[test]
    fn adds_products(rt: HostRuntime) {
        assert_eq!(rt; pair(&[1, -2, 3], &[4, 5, 6]), 12);
        assert_eq!(rt;
            pair(&[i64::MIN], &[-8_589_934_592]),
            79_228_162_514_264_337_593_543_950_336
        );
    }
}
