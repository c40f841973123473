// The words of `nef`.
ghost use Rattle.std.specs.Prelude.{◌≡◌, ◌<◌, ◌≤◌, ◌^◌, length, drop, [], None, Some, is_some, map, string_bytes, MatchResult, IsTrue};
ghost use Rattle.std.specs.Option.{unwrap_or};
ghost use Rattle.palp_words.specs.Numbers.{number_fault, number_of};
ghost use Rattle.palp_words.specs.Words.{first_fault, kind_or, conflict_where, nef_fault, nef_words, codim_of, is_codim_word};

use crate::fault::{WordFault, WordKind};
use crate::job::NefWords;
use crate::letters::{behind_flag, given, has_one_of, letters_fault};
use crate::number::number_between;

/// The codimension where no word gives it.
const USUAL_CODIM: u32 = 2;

/// The words behind `nef`, or the first wrong one of them.
pub fn read_nef(further: &[String]) -> Result<NefWords, WordFault>
    requires { length further.now < 2 ^ 31 }
    ensures { MatchResult result
        (λ words. (first_fault nef_fault [] (map string_bytes further.now) ≡ None)
        × (words ≡ nef_words (map string_bytes further.now)))
        (λ fault. first_fault nef_fault [] (map string_bytes further.now) ≡ Some fault) }
{
    let codim = check_nef(further)?;
    Ok(NefWords {
        codim: codim.unwrap_or(USUAL_CODIM),
        list_only: given(further, b"p"),
        full: given(further, b"H"),
    })
}

/// The codimension that the words behind `nef` give, if they do, or the first wrong one of them.
fn check_nef(further: &[String]) -> Result<Option<u32>, WordFault>
    requires { length further.now < 2 ^ 31 }
    ensures { MatchResult result
        (λ codim. (first_fault nef_fault [] (map string_bytes further.now) ≡ None)
        × (unwrap_or codim 2 ≡ codim_of (map string_bytes further.now)))
        (λ fault. first_fault nef_fault [] (map string_bytes further.now) ≡ Some fault) }
{
    let mut codim = None;
    let mut list_only = false;
    let mut full = false;
    for (place, word) in further.iter().enumerate() {
        let index = place as u32 + 2;
        let bytes = word.as_bytes();
        list_only |= has_one_of(bytes, b"p");
        full |= has_one_of(bytes, b"H");
        if is_codim_word(bytes) {
            match next_codim(bytes, codim) {
                Ok(number) => codim = Some(number),
                Err(kind) => return Err(WordFault { index, kind }),
            }
        } else if let Some(kind) = letters_fault(bytes, b"pH", list_only & full) {
            return Err(WordFault { index, kind });
        }
    }
    Ok(codim)
}

/// Whether the word begins with `-c`.
fn is_codim_word(word: &[u8]) -> bool
    ensures value { result ≡ is_codim_word word.now }
    ensures room { IsTrue result → 2 ≤ length word.now }
{
    word.starts_with(b"-c")
}

/// The codimension behind the `-c` of the word, where none was given before, or what is wrong with
/// the word.
fn next_codim(word: &[u8], before: Option<u32>) -> Result<u32, WordKind>
    requires { 2 ≤ length word.now }
    ensures { MatchResult result
        (λ n. (before ≡ None) × (number_fault 1 3 (drop 2 word.now) ≡ None) × (n ≡ number_of (drop 2 word.now)))
        (λ kind. kind_or (number_fault 1 3 (drop 2 word.now)) (conflict_where (is_some before)) ≡ Some kind) }
{
    let number = number_between(behind_flag(word), 1, 3)?;
    match before {
        None => Ok(number),
        Some(_) => Err(WordKind::Conflict),
    }
}
