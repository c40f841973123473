// The numbers of an item's first line.
ghost use Rattle.std.specs.Prelude.{◌≡◌, ℕ, ◌+◌, ◌≤◌, ◌<◌, ◌^◌, Bool, true, List, length, drop, slice_range, IfOk};
ghost use Rattle.palp_input.specs.Numerals.{numeral_of};
ghost use Rattle.palp_input.specs.Pieces.{pieces_of};
ghost use Rattle.palp_input.specs.Lines.{LineRead, line_read, line_token, other_token};
ghost use Rattle.palp_input.specs.LineSteps.{line_read_of, PartMeans, part_in_front, EndsAt, LineWithin, PartWithin};
ghost use Rattle.palp_input.specs.declared.numerals.Numeral.TheVariants.{Number};

use crate::fault::{ItemFault, TextKind};
use crate::numerals::{Numeral, numeral_of};
use crate::pieces::{Piece, Span, next_piece};
use lattice_core::NoMemory;
use std::alloc::Global;

/// A number of a first line, with its place.
#[derive(Clone, Copy, Debug, PartialEq, Eq)]
pub struct LineNumber {
    /// The place of its token.
    pub at: usize,
    /// The number.
    pub value: u64,
}

/// What a first line has.
#[derive(Debug, Drop, PartialEq, Eq)]
pub enum Line {
    /// Its leading numbers.
    Numbers(Vec<LineNumber>),
    /// A fault.
    Fault(ItemFault),
}

/// What stands at a place of a first line.
#[derive(Clone, Copy)]
enum Part {
    /// A number, and the place behind it.
    Number(LineNumber, usize),
    /// The line's end, or the begin of the ignored text.
    Rest,
    /// A fault.
    Fault(ItemFault),
}

/// The leading numbers of the line from the place on, or the first fault from the left.
pub fn read_line(alloc: Global, text: &[u8], from: usize) -> Result<Line, NoMemory>
    requires { from ≤ length text.now }
    ensures means { IfOk result (λ line. line_read_of line ≡ line_read text.now true (pieces_of from (drop from text.now))) }
    ensures within { IfOk result (LineWithin (length text.now)) }
{
    let mut numbers = Vec::new(alloc);
    let mut place = from;
    loop {
        match next_part(text, place, numbers.is_empty()) {
            Part::Number(number, end) => {
                numbers.push(number)?;
                place = end;
            }
            Part::Rest => return Ok(Line::Numbers(numbers)),
            Part::Fault(fault) => return Ok(Line::Fault(fault)),
        }
    }
}

/// What stands from the place on, where the line's first number is sought or isn't.
fn next_part(text: &[u8], place: usize, first: bool) -> Part
    requires { place ≤ length text.now }
    ensures means { PartMeans text.now place first (pieces_of place (drop place text.now)) result }
    ensures within { PartWithin (length text.now) result }
{
    match next_piece(text, place) {
        None | Some(Piece::LineEnd(_)) => Part::Rest,
        Some(Piece::Wrong(at)) => Part::Fault(ItemFault {
            kind: TextKind::BadByte,
            at,
            end: at + 1,
        }),
        Some(Piece::Token(span)) => token_part(text, span, first),
    }
}

/// What a token of a first line is.
fn token_part(text: &[u8], token: Span, first: bool) -> Part
    requires least { token.at ≤ token.end }
    requires most { token.end ≤ length text.now }
    ensures means { (rest : LineRead) → part_in_front result rest
        ≡ line_token first token.at token.end (slice_range text.now token.at token.end)
        (numeral_of (slice_range text.now token.at token.end)) rest }
    ensures ends { EndsAt result token.end }
    ensures within { PartWithin token.end result }
{
    let bytes = &text[token.at..token.end];
    match numeral_of(bytes) {
        Numeral::NoNumber => other_part(bytes, token, first),
        Numeral::TooLarge => Part::Fault(ItemFault {
            kind: TextKind::NumberRange,
            at: token.at,
            end: token.end,
        }),
        Numeral::Number(value) => number_part(value, token),
    }
}

/// What a number of a first line is.
fn number_part(value: i64, token: Span) -> Part
    ensures means { (rest : LineRead) (bytes : List ℕ) (first : Bool) → part_in_front result rest
        ≡ line_token first token.at token.end bytes (Number value) rest }
    ensures ends { EndsAt result token.end }
    ensures within { PartWithin token.end result }
{
    if value < 0 {
        Part::Fault(ItemFault {
            kind: TextKind::NumberRange,
            at: token.at,
            end: token.end,
        })
    } else {
        let number = LineNumber {
            at: token.at,
            value: value as u64,
        };
        Part::Number(number, token.end)
    }
}

/// What a token of a first line is that isn't a number.
fn other_part(bytes: &[u8], token: Span, first: bool) -> Part
    requires fits { token.at + length bytes.now < 2 ^ 64 }
    requires most { token.at + length bytes.now ≤ token.end }
    ensures means { (rest : LineRead) → part_in_front result rest ≡ other_token first token.at token.end bytes.now }
    ensures ends { EndsAt result token.end }
    ensures within { PartWithin token.end result }
{
    if first {
        Part::Fault(ItemFault {
            kind: TextKind::BadNumber,
            at: token.at,
            end: token.end,
        })
    } else if bytes.starts_with(b"/Z") {
        Part::Fault(ItemFault {
            kind: TextKind::Quotient,
            at: token.at,
            end: token.at + 2,
        })
    } else {
        Part::Rest
    }
}
