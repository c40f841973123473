//! Words of 64 bits as sets of numbers.
ghost use Rattle.std.specs.Prelude.{◌≡◌, ◌↔◌, ℕ, ◌<◌, ◌≤◌, ◌/◌, length, bit_and, slice_index_or, IsTrue};
ghost use Rattle.bit_pool.specs.Bits.{words_for, bit_of, HasBit, IsSubset, IsRow, size_of};
ghost use Rattle.bit_pool.specs.declared.limits.TheConstants.{MOST_WIDTH};

/// The least number of words that hold so many bits.
pub(crate) fn word_count(width: usize) -> usize
    requires { width ≤ MOST_WIDTH }
    ensures { result ≡ words_for width }
{
    (width + 63) / 64
}

/// Whether the number is in the set.
pub(crate) fn has_bit(words: &[u64], number: usize) -> bool
    requires { number / 64 < length words.now }
    ensures { IsTrue result ↔ HasBit words.now number }
{
    (words[number / 64] >> (number % 64)) & 1 == 1
}

/// How many numbers below the width are in the set.
pub(crate) fn size_of_row(words: &[u64]) -> u32
    requires { length words.now ≤ 64 }
    ensures { (width : ℕ) → IsRow width words.now → result ≡ size_of width words.now }
{
    let mut count = 0;
    for word in words {
        count += word.count_ones();
    }
    count
}

/// Whether each number of the first set is in the second, of as many words.
pub fn is_within(words: &[u64], others: &[u64]) -> bool
    requires { length words.now ≡ length others.now }
    ensures { IsTrue result ↔ IsSubset words.now others.now }
{
    for i in 0..words.len() {
        if words[i] & others[i] != words[i] {
            return false;
        }
    }
    true
}

/// The words of the numbers that are in both sets, of as many words, at most 64; behind them zeros.
pub(crate) fn meet_of(words: &[u64], others: &[u64]) -> [u64; 64]
    requires same { length words.now ≡ length others.now }
    requires most { length words.now ≤ 64 }
    ensures whole { length result ≡ 64 }
    ensures entries { (i : ℕ) → i < length words.now → slice_index_or result i 0 ≡ bit_and (slice_index_or words.now i 0) (slice_index_or others.now i 0) }
{
    let mut meet = [0; 64];
    for i in 0..words.len() {
        meet[i] = words[i] & others[i];
    }
    meet
}
