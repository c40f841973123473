//! Least multipliers, found by Euclid's steps.
ghost use Rattle.std.specs.Prelude.{◌≡◌, ◌^◌, ◌*◌, ◌<◌, ℤ, pos, nat_abs, ◌*ℤ◌, ◌-ℤ◌};
ghost use Rattle.std.specs.Int.{int_rem_euclid};
ghost use Rattle.std.specs.Int.RustNames.{int_div};
ghost use Rattle.weight_frame.specs.Frame.{AreLeastMultipliers};
ghost use Rattle.weight_frame.specs.steps.Euclid.{IsBezout};

/// The greatest common divisor of two numbers and a multiplier of the first.
#[derive(Drop)]
struct Bezout {
    divisor: u64,
    multiplier: i64,
}

/// The greatest common divisor of a value and the number behind, the quotients of the two by it, and the least multipliers with which it is
/// their combination.
#[derive(Drop)]
pub(crate) struct Multipliers {
    pub(crate) divisor: u64,
    pub(crate) behind: u64,
    pub(crate) here: i64,
    pub(crate) first: u64,
    pub(crate) second: i128,
}

/// The factor of the rest of a division.
fn next_factor(greater_factor: i64, quotient: u64, lesser_factor: i64) -> i64
    requires quotient { quotient < 2 ^ 55 }
    requires greater { nat_abs greater_factor < 2 ^ 55 }
    requires taken { quotient * nat_abs lesser_factor < 2 ^ 55 }
    ensures { result ≡ greater_factor -ℤ pos quotient *ℤ lesser_factor }
{
    greater_factor - quotient as i64 * lesser_factor
}

/// The greatest common divisor of `r` and `after`, and a multiplier of `r` that makes it modulo `after`.
fn euclid(r: u64, after: u64) -> Bezout
    requires positive { 0 < after }
    requires small { after < 2 ^ 55 }
    requires rest { r < after }
    ensures { IsBezout r after result.divisor result.multiplier }
{
    let mut greater = after;
    let mut greater_factor = 0_i64;
    let mut lesser = r;
    let mut lesser_factor = 1_i64;
    while lesser != 0 {
        let factor = next_factor(greater_factor, greater / lesser, lesser_factor);
        let rest = greater % lesser;
        greater = lesser;
        greater_factor = lesser_factor;
        lesser = rest;
        lesser_factor = factor;
    }
    Bezout {
        divisor: greater,
        multiplier: greater_factor,
    }
}

/// The rest of a value modulo `after`.
fn rest_of(value: i64, after: u64) -> u64
    requires positive { 0 < after }
    requires small { after < 2 ^ 55 }
    ensures value { pos result ≡ int_rem_euclid value (pos after) }
    ensures below { result < after }
{
    value.rem_euclid(after as i64) as u64
}

/// The quotient of a value by a divisor.
fn quotient(value: i64, divisor: u64) -> i64
    requires positive { 0 < divisor }
    requires small { divisor < 2 ^ 55 }
    ensures { result ≡ int_div value (pos divisor) }
{
    value / divisor as i64
}

/// What is left of the divisor beside the first multiple.
fn left_beside(divisor: u64, first: u64, value: i64) -> i128
    requires divisor { divisor < 2 ^ 55 }
    requires first { first < 2 ^ 55 }
    requires value { nat_abs value < 2 ^ 55 }
    ensures left { result ≡ pos divisor -ℤ pos first *ℤ value }
    ensures bound { nat_abs result < 2 ^ 112 }
{
    i128::from(divisor) - i128::from(first) * i128::from(value)
}

/// What is left of the divisor beside the first multiple, divided by `after`.
fn second_multiplier(divisor: u64, first: u64, value: i64, after: u64) -> i128
    requires positive { 0 < after }
    requires small { after < 2 ^ 55 }
    requires divisor { divisor < 2 ^ 55 }
    requires first { first < 2 ^ 55 }
    requires value { nat_abs value < 2 ^ 55 }
    ensures { result ≡ int_div (pos divisor -ℤ pos first *ℤ value) (pos after) }
{
    left_beside(divisor, first, value) / i128::from(after)
}

/// The least multipliers for a value and the number behind.
pub(crate) fn least_multipliers(value: i64, after: u64) -> Multipliers
    requires positive { 0 < after }
    requires small { after < 2 ^ 55 }
    requires value { nat_abs value < 2 ^ 55 }
    ensures { AreLeastMultipliers value after result.divisor result.behind result.here result.first result.second }
{
    let found = euclid(rest_of(value, after), after);
    let behind = after / found.divisor;
    let first = rest_of(found.multiplier, behind);
    Multipliers {
        divisor: found.divisor,
        behind,
        here: quotient(value, found.divisor),
        first,
        second: second_multiplier(found.divisor, first, value, after),
    }
}
