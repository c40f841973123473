//! Greatest common divisors.
ghost use Rattle.std.specs.Prelude.{◌≡◌, ℕ, ◌<◌, ◌≤◌, ◌^◌, ◌*ℤ◌, ◌↔◌, pos, length, nat_abs, IsNone, IfSome};
ghost use Rattle.std.specs.Int.{◌∣◌, IsGcd};
ghost use Rattle.std.specs.List.{All};
ghost use Rattle.lattice_core.specs.Divisors.{IsPrimitivePart};
ghost use Rattle.lattice_core.specs.declared.limits.TheConstants.{MOST_COORDINATES};

use crate::MOST_COORDINATES;
use arrayvec::ArrayVec;

/// The largest number that fits a machine word.
const WORD_MAX: u128 = 0xffff_ffff_ffff_ffff;

/// The greatest common divisor of any two numbers of 128 bits: it divides both, and each number that divides both divides it. That of 0 and 0
/// is 0.
pub fn gcd(a: u128, b: u128) -> u128
    ensures { IsGcd a b result }
{
    let mut greater = a;
    let mut lesser = b;
    while lesser > WORD_MAX {
        let rest = greater % lesser;
        greater = lesser;
        lesser = rest;
    }
    if lesser == 0 {
        return greater;
    }
    u128::from(gcd_of_words(lesser as u64, (greater % lesser) as u64))
}

/// The same for numbers that fit a machine word, whose remainders are cheap.
fn gcd_of_words(a: u64, b: u64) -> u64
    ensures { IsGcd a b result }
{
    let mut greater = a;
    let mut lesser = b;
    while lesser != 0 {
        let rest = greater % lesser;
        greater = lesser;
        lesser = rest;
    }
    greater
}

/// The greatest common divisor of the entries, which is 0 where all are 0.
fn common_divisor(v: &[i128]) -> u128
    requires { All (λ a. nat_abs a < 2 ^ 127) v.now }
    ensures divides { All (λ a. result ∣ nat_abs a) v.now }
    ensures greatest { (d : ℕ) → All (λ a. d ∣ nat_abs a) v.now → d ∣ result }
    ensures bound { result < 2 ^ 127 }
{
    let mut divisor = 0;
    for entry in v {
        divisor = gcd(entry.unsigned_abs(), divisor);
        if divisor == 1 {
            return 1;
        }
    }
    divisor
}

/// The vector divided by the greatest common divisor of its entries, of which there are 1 to 6, all above -2^127. It is `None` exactly where
/// all entries are 0.
pub fn primitive(v: &[i128]) -> Option<ArrayVec<i128, MOST_COORDINATES>>
    requires least { 1 ≤ length v.now }
    requires most { length v.now ≤ MOST_COORDINATES }
    requires small { All (λ a. nat_abs a < 2 ^ 127) v.now }
    ensures variant { IsNone result ↔ All (λ a. a ≡ pos 0) v.now }
    ensures part { IfSome result (λ w. IsPrimitivePart v.now w.items) }
{
    let divisor = common_divisor(v);
    if divisor == 0 {
        return None;
    }
    let mut quotients = ArrayVec::new();
    for entry in v {
        quotients.push(quotient(*entry, divisor));
    }
    Some(quotients)
}

/// A number divided by one of its divisors.
fn quotient(a: i128, divisor: u128) -> i128
    requires positive { 0 < divisor }
    requires bound { divisor < 2 ^ 127 }
    requires divides { divisor ∣ nat_abs a }
    ensures { pos divisor *ℤ result ≡ a }
{
    if divisor == 1 {
        return a;
    }
    a / divisor as i128
}

#[cfg(test)]
mod tests {
    use super::*;

    #[test]
    fn finds_greatest_common_divisors(rt: HostRuntime) {
        for (a, b, want) in [
            (12, 18, 6),
            (0, 7, 7),
            (0, 0, 0),
            (
                170_141_183_460_469_231_731_687_303_715_884_105_728,
                36_893_488_147_419_103_232,
                36_893_488_147_419_103_232,
            ),
        ] {
            assert_eq!(rt; gcd(a, b), want);
        }
    }

    #[test]
    fn divides_by_the_greatest_common_divisor(rt: HostRuntime) {
        let quotients = primitive(&[4, -6]).expect(&rt, "an entry that is not 0");
        assert_eq!(rt; quotients.as_slice(), [2, -3].as_slice());
        assert!(rt; primitive(&[0, 0]).is_none());
    }
}
