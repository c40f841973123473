// The words of `sweep`.
ghost use Rattle.std.specs.Prelude.{◌≡◌, ◌+◌, ◌-◌, ◌<◌, ◌^◌, length, drop, None, Some, Ok, Err, map, string_bytes, MatchResult};
ghost use Rattle.palp_words.specs.Places.{first_number_fault, first_number};
ghost use Rattle.palp_words.specs.Words.{command_answer, sweep_fault, sweep_job, highest};
ghost use Rattle.palp_words.specs.declared.job.Job.TheVariants.{Sweep};

use crate::fault::{WordFault, WordKind};
use crate::job::SweepWords;
use crate::number::{LARGEST, number_between};

/// The largest degree of systems with `dim + 1` weights.
pub fn highest(dim: u32) -> u32
    ensures { result ≡ highest dim }
{
    if dim == 5 { 250 } else { 4_095 }
}

/// The number from `low` to `high` that stands at the place, counted from 0.
pub fn number_at(further: &[String], place: usize, low: u32, high: u32) -> Result<u32, WordFault>
    requires { place < 2 ^ 32 - 2 }
    ensures { MatchResult result
        (λ n. (first_number_fault low high (drop place (map string_bytes further.now)) ≡ None)
        × (n ≡ first_number (drop place (map string_bytes further.now))))
        (λ fault. (first_number_fault low high (drop place (map string_bytes further.now)) ≡ Some fault.kind)
        × (fault.index ≡ place + 2)) }
{
    let index = place as u32 + 2;
    if place >= further.len() {
        return Err(WordFault {
            index,
            kind: WordKind::Missing,
        });
    }
    match number_between(further[place].as_bytes(), low, high) {
        Ok(number) => Ok(number),
        Err(kind) => Err(WordFault { index, kind }),
    }
}

/// The words behind `sweep`, or the first wrong one of them.
pub fn read_sweep(further: &[String]) -> Result<SweepWords, WordFault>
    requires { length further.now < 2 ^ 31 }
    ensures { MatchResult result
        (λ words. command_answer sweep_fault (sweep_job (map string_bytes further.now)) (map string_bytes further.now) ≡ Ok (Sweep words))
        (λ fault. command_answer sweep_fault (sweep_job (map string_bytes further.now)) (map string_bytes further.now) ≡ Err fault) }
{
    let dim = number_at(further, 0, 1, 5)?;
    let low = number_at(further, 1, 1, LARGEST)?;
    let high = number_at(further, 2, low, highest(dim))?;
    if further.len() > 3 {
        return Err(WordFault {
            index: 5,
            kind: WordKind::Extra,
        });
    }
    Ok(SweepWords { dim, low, high })
}
