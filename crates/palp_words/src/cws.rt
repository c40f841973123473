// The words of `cws`.
ghost use Rattle.std.specs.Prelude.{◌≡◌, ◌+◌, ◌-◌, ◌<◌, ◌≤◌, ◌^◌, length, drop, None, Some, Ok, Err, map, string_bytes, MatchResult, IsTrue};
ghost use Rattle.std.specs.List.{list_any};
ghost use Rattle.palp_words.specs.Numbers.{number_of};
ghost use Rattle.palp_words.specs.Places.{size_fault, first_size_fault, first_size};
ghost use Rattle.palp_words.specs.Words.{command_answer, cws_fault, cws_job, is_option, is_size_word, without_options};
ghost use Rattle.palp_words.specs.declared.job.Job.TheVariants.{Cws};

use crate::fault::{WordFault, WordKind};
use crate::job::CwsWords;
use crate::letters::behind_flag;
use crate::number::{LARGEST, number_between};
use crate::sweep::{highest, number_at};

/// The words behind `cws`, or the first wrong one of them.
pub fn read_cws(further: &[String]) -> Result<CwsWords, WordFault>
    requires { length further.now < 2 ^ 31 }
    ensures { MatchResult result
        (λ words. command_answer cws_fault (cws_job (map string_bytes further.now)) (map string_bytes further.now) ≡ Ok (Cws words))
        (λ fault. command_answer cws_fault (cws_job (map string_bytes further.now)) (map string_bytes further.now) ≡ Err fault) }
{
    let start = options_end(further, 0);
    let dim = size_at(further, start)?;
    let low = number_at(further, start + 1, 1, LARGEST)?;
    let high = number_at(further, start + 2, low, highest(dim))?;
    let end = options_end(further, start + 3);
    if end < further.len() {
        let index = end as u32 + 2;
        return Err(WordFault {
            index,
            kind: WordKind::Extra,
        });
    }
    let reflexive_only = has_option(further);
    Ok(CwsWords {
        dim,
        low,
        high,
        reflexive_only,
    })
}

/// Whether the word is `-r`.
fn is_option(word: &[u8]) -> bool
    ensures { result ≡ is_option word.now }
{
    word == b"-r".as_slice()
}

/// Whether some word is `-r`.
fn has_option(further: &[String]) -> bool
    ensures { result ≡ list_any is_option (map string_bytes further.now) }
{
    for word in further {
        if is_option(word.as_bytes()) {
            return true;
        }
    }
    false
}

/// The first place from `from` on whose word isn't `-r`, or the number of words.
fn options_end(further: &[String], from: usize) -> usize
    ensures rest { drop result (map string_bytes further.now) ≡ without_options (drop from (map string_bytes further.now)) }
    ensures within { result ≤ length further.now }
{
    for place in from..further.len() {
        if !is_option(further[place].as_bytes()) {
            return place;
        }
    }
    further.len()
}

/// Whether the word begins with `-w`.
fn is_size_word(word: &[u8]) -> bool
    ensures value { result ≡ is_size_word word.now }
    ensures room { IsTrue result → 2 ≤ length word.now }
{
    word.starts_with(b"-w")
}

/// The number behind `-w` at the place, counted from 0.
fn size_at(further: &[String], place: usize) -> Result<u32, WordFault>
    requires { place < 2 ^ 32 - 2 }
    ensures { MatchResult result
        (λ n. (first_size_fault (drop place (map string_bytes further.now)) ≡ None)
        × (n ≡ first_size (drop place (map string_bytes further.now))))
        (λ fault. (first_size_fault (drop place (map string_bytes further.now)) ≡ Some fault.kind)
        × (fault.index ≡ place + 2)) }
{
    let index = place as u32 + 2;
    if place >= further.len() {
        return Err(WordFault {
            index,
            kind: WordKind::Missing,
        });
    }
    match size_of(further[place].as_bytes()) {
        Ok(number) => Ok(number),
        Err(kind) => Err(WordFault { index, kind }),
    }
}

/// The number behind the `-w` of the word.
fn size_of(word: &[u8]) -> Result<u32, WordKind>
    ensures { MatchResult result
        (λ n. (size_fault word.now ≡ None) × (n ≡ number_of (drop 2 word.now)))
        (λ kind. size_fault word.now ≡ Some kind) }
{
    if is_size_word(word) {
        number_between(behind_flag(word), 1, 5)
    } else {
        Err(WordKind::Flag)
    }
}
