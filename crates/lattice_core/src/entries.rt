//! The entries of a point or of a normal.
ghost use Rattle.std.specs.Prelude.{◌≡◌, ◌^◌, ◌<◌, ◌≤◌, length, nat_abs};
ghost use Rattle.std.specs.List.{All};
ghost use Rattle.lattice_core.specs.declared.limits.TheConstants.{MOST_COORDINATES};

use crate::MOST_COORDINATES;
use arrayvec::ArrayVec;

/// These entries, of which there are at most 6.
pub(crate) fn held(entries: &[i64]) -> ArrayVec<i64, MOST_COORDINATES>
    requires { length entries.now ≤ MOST_COORDINATES }
    ensures { result.items ≡ entries.now }
{
    match ArrayVec::try_from(entries) {
        Ok(held) => held,
        Err(_) => unreachable!(),
    }
}

/// The same entries in 64 bits, for a vector of at most 6 entries whose absolute values are below 2^63.
pub fn narrowed(vector: &[i128]) -> ArrayVec<i64, MOST_COORDINATES>
    requires most { length vector.now ≤ MOST_COORDINATES }
    requires small { All (λ a. nat_abs a < 2 ^ 63) vector.now }
    ensures { result.items ≡ vector.now }
{
    let mut entries = ArrayVec::new();
    for entry in vector {
        entries.push(narrowed_entry(*entry));
    }
    entries
}

/// The same number in 64 bits, for one whose absolute value is below 2^63.
pub fn narrowed_entry(a: i128) -> i64
    requires { nat_abs a < 2 ^ 63 }
    ensures { result ≡ a }
{
    a as i64
}

#[cfg(test)]
mod tests {
    use super::*;

    #[test]
    fn keeps_entries_in_64_bits(rt: HostRuntime) {
        let entries = narrowed(&[-7, 0, 9_223_372_036_854_775_807]);
        assert_eq!(rt;
            entries.as_slice(),
            [-7, 0, 9_223_372_036_854_775_807].as_slice()
        );
    }
}
