// Letters behind a `-`.
ghost use Rattle.std.specs.Prelude.{◌≡◌, ◌≤◌, length, drop, map, string_bytes};
ghost use Rattle.std.specs.List.{list_all};
ghost use Rattle.palp_words.specs.Letters.{is_among, is_letter_word, has_one_of, given};
ghost use Rattle.palp_words.specs.Words.{letters_fault};

use crate::fault::WordKind;

/// The fault of a word that has to be `-` and one or more of the letters, where `conflict` tells
/// whether one of its letters excludes another.
pub fn letters_fault(word: &[u8], letters: &[u8], conflict: bool) -> Option<WordKind>
    ensures { result ≡ letters_fault letters.now conflict word.now }
{
    if !is_letter_word(word, letters) {
        Some(WordKind::Flag)
    } else if conflict {
        Some(WordKind::Conflict)
    } else {
        None
    }
}

/// Whether the word is `-` and one or more of the letters.
fn is_letter_word(word: &[u8], letters: &[u8]) -> bool
    ensures { result ≡ is_letter_word letters.now word.now }
{
    match word.split_first() {
        Some((first, rest)) => {
            let some = *first == b'-' && !rest.is_empty();
            let among = all_among(rest, letters);
            some && among
        }
        None => false,
    }
}

/// Whether each byte is one of the letters.
fn all_among(bytes: &[u8], letters: &[u8]) -> bool
    ensures { result ≡ list_all (is_among letters.now) bytes.now }
{
    bytes.iter().all(|byte| letters.contains(byte))
}

/// What stands behind the `-` and one letter of the word.
pub fn behind_flag(word: &[u8]) -> &[u8]
    requires { 2 ≤ length word.now }
    ensures { result.now ≡ drop 2 word.now }
{
    &word[2..]
}

/// Whether one of the letters stands in the word.
pub fn has_one_of(word: &[u8], letters: &[u8]) -> bool
    ensures { result ≡ has_one_of letters.now word.now }
{
    word.iter().any(|byte| letters.contains(byte))
}

/// Whether one of the letters stands in some word.
pub fn given(words: &[String], letters: &[u8]) -> bool
    ensures { result ≡ given letters.now (map string_bytes words.now) }
{
    for word in words {
        if has_one_of(word.as_bytes(), letters) {
            return true;
        }
    }
    false
}
