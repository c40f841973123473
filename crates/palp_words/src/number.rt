// Number words.
ghost use Rattle.std.specs.Prelude.{◌≡◌, ◌≤◌, length, MatchResult, if◌then◌else◌};
ghost use Rattle.std.specs.Str.{all_ascii_digits};
ghost use Rattle.palp_words.specs.Numbers.{is_number_word, number_of, number_fault, most_digits};

use crate::fault::WordKind;

const MOST_DIGITS: usize = 9;

/// The largest number that a number word writes.
pub const LARGEST: u32 = 999_999_999;

/// The number of a word of one to nine digits; another word has none.
pub fn number_of(word: &[u8]) -> Option<u32>
    ensures { result ≡ (if is_number_word word.now then Some (number_of word.now) else None) }
{
    if word.is_empty() || word.len() > MOST_DIGITS {
        None
    } else {
        value_of(word)
    }
}

/// The number that at most nine digits write; other bytes write none.
fn value_of(digits: &[u8]) -> Option<u32>
    requires { length digits.now ≤ most_digits }
    ensures { result ≡ (if all_ascii_digits digits.now then Some (number_of digits.now) else None) }
{
    let mut value: u32 = 0;
    for digit in digits {
        if !digit.is_ascii_digit() {
            return None;
        }
        value = value * 10 + u32::from(*digit - b'0');
    }
    Some(value)
}

/// The number of a number word, which has to be from `low` to `high`.
pub fn number_between(word: &[u8], low: u32, high: u32) -> Result<u32, WordKind>
    ensures { MatchResult result
        (λ n. (number_fault low high word.now ≡ None) × (n ≡ number_of word.now))
        (λ kind. number_fault low high word.now ≡ Some kind) }
{
    match number_of(word) {
        None => Err(WordKind::Number),
        Some(number) if low <= number && number <= high => Ok(number),
        Some(_) => Err(WordKind::Range),
    }
}

#[cfg(test)]
mod tests {
    use super::*;

    #[test]
    fn reads_one_to_nine_digits(rt: HostRuntime) {
        assert_eq!(rt; number_of(b"000000012"), Some(12));
        assert_eq!(rt; number_of(b"1234567890"), None);
        assert_eq!(rt; number_of(b"-1"), None);
        assert_eq!(rt; number_between(b"4", 1, 3), Err(WordKind::Range));
    }
}
