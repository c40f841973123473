//! Words of 64 bits that are filled bit by bit, and put into a pool as a row.
ghost use Rattle.std.specs.Prelude.{◌≡◌, ◌⊎◌, ◌↔◌, ℕ, ◌/◌, ◌<◌, length};
ghost use Rattle.bit_pool.specs.Bits.{HasBit};
ghost use Rattle.incidence.specs.RowSteps.{HasRow};

use bit_pool::RowPool;

/// Puts a number into the set that words tell.
pub fn put_bit(words: &mut [u64], number: usize)
    requires { number / 64 < length words.old }
    ensures count { length words.new ≡ length words.old }
    ensures bits { (n : ℕ) → HasBit words.new n ↔ (HasBit words.old n ⊎ (n ≡ number)) }
{
    words[number / 64] |= 1 << (number % 64);
}

/// Adds the set that 64 words tell as a row to a pool that has room for it.
pub(crate) fn push_words(pool: &mut RowPool, words: &[u64])
    requires whole { length words.now ≡ 64 }
    requires room { length pool.old.young_generation.rows < pool.old.young_generation.reserved }
    requires below { (n : ℕ) → HasBit words.now n → n < pool.old.width }
    ensures { HasRow pool.old pool.new words.now }
{
    let count = (pool.width() + 63) / 64;
    match pool.push(&words[..count]) {
        Ok(_) => {}
        Err(_) => unreachable!(),
    }
}
