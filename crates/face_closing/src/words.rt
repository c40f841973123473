//! Words of 64 bits as sets of numbers.
ghost use Rattle.std.specs.Prelude.{◌≡◌, ◌/◌, ◌<◌, ◌^◌, length};
ghost use Rattle.face_closing.specs.Words.{meet_words, IsCompared};
ghost use Rattle.face_closing.specs.steps.Chains.{bucket_of};

use std::cmp::Ordering;

/// Writes what two sets have in common.
pub fn meet_into(meet: &mut [u64], words: &[u64], others: &[u64])
    requires words { length words.now ≡ length meet.old }
    requires others { length others.now ≡ length meet.old }
    ensures { meet.new ≡ meet_words words.now others.now }
{
    for i in 0..meet.len() {
        meet[i] = words[i] & others[i];
    }
}

/// Which of two sets, of as many words, has the first number in which they differ: `Less` where that is the first set. Of sets of which neither
/// is within the other it is the one whose ascending list of numbers comes first.
pub fn compare(words: &[u64], others: &[u64]) -> Ordering
    requires { length words.now ≡ length others.now }
    ensures { IsCompared words.now others.now result }
{
    for i in 0..words.len() {
        if words[i] != others[i] {
            let first = (words[i] ^ others[i]).trailing_zeros();
            return if (words[i] >> first) & 1 == 1 {
                Ordering::Less
            } else {
                Ordering::Greater
            };
        }
    }
    Ordering::Equal
}

/// The bucket in which a row is found.
#[inline]
pub(crate) fn bucket(words: &[u64]) -> usize
    ensures value { result ≡ bucket_of words.now }
    ensures below { result < 4096 }
{
    let mut mix: u64 = 0;
    for word in words {
        mix = (mix ^ word).wrapping_mul(0x9e37_79b9_7f4a_7c15);
    }
    (mix >> 52) as usize
}
