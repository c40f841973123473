// The entries of a matrix.
ghost use Rattle.std.specs.Prelude.{◌≡◌, ◌≤◌, length, drop, slice_range, IfOk};
ghost use Rattle.palp_input.specs.Pieces.{pieces_of};
ghost use Rattle.palp_input.specs.Lines.{MatrixRead, matrix_read, matrix_token};
ghost use Rattle.palp_input.specs.LineSteps.{matrix_read_of, entry_in_front, EntryMeans, EntryEndsAt, EntriesWithin, EntryWithin};
ghost use Rattle.palp_input.specs.Numerals.{numeral_of};

use crate::fault::{ItemFault, TextKind};
use crate::numerals::{Numeral, numeral_of};
use crate::pieces::{Mark, Span, next_mark};
use lattice_core::NoMemory;
use std::alloc::Global;

/// What stands in the place of a matrix.
#[derive(Debug, Drop, PartialEq, Eq)]
pub enum Entries {
    /// All entries, and the place behind the last one.
    All(Vec<i64>, usize),
    /// A fault.
    Fault(ItemFault),
    /// The text ends before the last entry.
    TooFew,
}

/// What stands in the place of an entry.
#[derive(Clone, Copy)]
pub enum Part {
    /// An entry, and the place behind it.
    Entry(i64, usize),
    /// A fault.
    Fault(ItemFault),
    /// The text ends.
    Missing,
}

/// So many entries from the place on, parted by blanks and line ends, or the first fault from the
/// left.
pub fn read_entries(
    alloc: Global,
    text: &[u8],
    from: usize,
    count: u128,
) -> Result<Entries, NoMemory>
    requires { from ≤ length text.now }
    ensures means { IfOk result (λ entries. matrix_read_of entries
        ≡ matrix_read text.now count from (pieces_of from (drop from text.now))) }
    ensures within { IfOk result (EntriesWithin from (length text.now)) }
{
    let mut entries = Vec::new(alloc);
    let mut place = from;
    let mut left = count;
    while left > 0 {
        match next_entry(text, place) {
            Part::Entry(entry, end) => {
                entries.push(entry)?;
                place = end;
                left -= 1;
            }
            Part::Fault(fault) => return Ok(Entries::Fault(fault)),
            Part::Missing => return Ok(Entries::TooFew),
        }
    }
    Ok(Entries::All(entries, place))
}

/// What stands in the place of an entry, from the place on.
pub fn next_entry(text: &[u8], place: usize) -> Part
    requires { place ≤ length text.now }
    ensures means { EntryMeans text.now place (pieces_of place (drop place text.now)) result }
    ensures within { EntryWithin (length text.now) result }
{
    match next_mark(text, place) {
        Mark::Nothing => Part::Missing,
        Mark::BadByte(at) => Part::Fault(ItemFault {
            kind: TextKind::BadByte,
            at,
            end: at + 1,
        }),
        Mark::Word(token) => token_part(text, token),
    }
}

/// What a token in the place of an entry is.
fn token_part(text: &[u8], token: Span) -> Part
    requires least { token.at ≤ token.end }
    requires most { token.end ≤ length text.now }
    ensures means { (rest : MatrixRead) → entry_in_front result rest
        ≡ matrix_token token.at token.end (numeral_of (slice_range text.now token.at token.end)) rest }
    ensures ends { EntryEndsAt result token.end }
    ensures within { EntryWithin token.end result }
{
    let kind = match numeral_of(&text[token.at..token.end]) {
        Numeral::Number(value) => return Part::Entry(value, token.end),
        Numeral::NoNumber => TextKind::BadNumber,
        Numeral::TooLarge => TextKind::NumberRange,
    };
    Part::Fault(ItemFault {
        kind,
        at: token.at,
        end: token.end,
    })
}
