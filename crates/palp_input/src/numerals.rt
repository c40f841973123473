// Tokens that are numbers.
ghost use Rattle.std.specs.Prelude.{◌≡◌, min, Some, None, if◌then◌else◌};
ghost use Rattle.std.specs.Str.Parse.{digits_value};
ghost use Rattle.palp_input.specs.Numerals.{bound, is_digits, numeral_of};

/// What a token is.
#[derive(Clone, Copy, Debug, PartialEq, Eq)]
pub enum Numeral {
    /// No number.
    NoNumber,
    /// A number of 10^18 or more in absolute value.
    TooLarge,
    /// This number.
    Number(i64),
}

/// Numbers are smaller in absolute value: 10^18.
pub const BOUND: u64 = 1_000_000_000_000_000_000;

/// What the token is: a number is one or more digits, with one `-` in front where it is negative.
pub fn numeral_of(token: &[u8]) -> Numeral
    ensures { result ≡ numeral_of token.now }
{
    let Some((first, rest)) = token.split_first() else {
        return Numeral::NoNumber;
    };
    let negative = *first == b'-';
    let size = if negative {
        size_of(rest)
    } else {
        size_of(token)
    };
    match size {
        None => Numeral::NoNumber,
        Some(size) if size >= BOUND => Numeral::TooLarge,
        Some(size) if negative => Numeral::Number(-(size as i64)),
        Some(size) => Numeral::Number(size as i64),
    }
}

/// The number that digits write, or 10^18 where it is at least that; other bytes write none.
fn size_of(digits: &[u8]) -> Option<u64>
    ensures { result ≡ (if is_digits digits.now then Some (min (digits_value 10 digits.now) bound) else None) }
{
    if digits.is_empty() {
        return None;
    }
    let mut size: u64 = 0;
    for digit in digits {
        if !digit.is_ascii_digit() {
            return None;
        }
        size = (size * 10 + u64::from(*digit - b'0')).min(BOUND);
    }
    Some(size)
}
