// What the bytes held begin with, while the next item isn't known from them.
ghost use Rattle.std.specs.Prelude.{◌≡◌, ℕ, ◌≤◌, ◌<◌, true, length, take, slice_index, IfOk, IfSome, Contains, IsTrue, ◌↔◌};
ghost use Rattle.palp_input.specs.Pieces.{line_feed};
ghost use Rattle.palp_input.specs.OpeningSteps.{OpeningMeans, LookMeans, MatrixSoFar, Seen, is_gap};

use crate::fault::ItemFault;
use crate::grammar::{Found, first_item};
use crate::item::{Item, Matrix};
use crate::lines::{Line, read_line};
use crate::matrices::{Part, next_entry};
use crate::pieces::{Mark, line_end, next_mark};
use lattice_core::NoMemory;
use std::alloc::Global;

/// What the bytes held begin with.
#[derive(Drop)]
pub enum Opening {
    /// They are blanks and line ends.
    Blank,
    /// An item has begun.
    Begun,
    /// A matrix has begun, whose header is read.
    Matrix(Pending),
}

/// A matrix some of whose entries are read.
#[derive(Drop)]
pub struct Pending {
    /// The number of lines.
    pub lines: u64,
    /// The number of columns.
    pub columns: u64,
    /// The entries that are read.
    pub entries: Vec<i64>,
    /// The place from which on the others stand.
    pub place: usize,
    /// How many others there are.
    pub left: u128,
}

/// What the bytes held tell of the next item.
#[derive(Drop)]
pub enum Look {
    /// It is this one, and ends with the line end before the place.
    Known(Item, usize),
    /// It is faulty.
    Faulty(ItemFault),
    /// It isn't known yet.
    Unknown(Opening),
}

/// Looks at the bytes held, where so many of them were looked at before. As an item or a fault is known
/// only with a line end, nothing is read again before the next one is there; and as a fault at the end
/// of the bytes is known only by the byte behind it, the last of them counts too.
pub fn look_at(
    alloc: Global,
    text: &[u8],
    looked: usize,
    opening: Opening,
) -> Result<Look, NoMemory>
    requires within { looked ≤ length text.now }
    requires seen { Seen (take looked text.now) opening }
    ensures { IfOk result (LookMeans text.now) }
{
    let opening = longer(text, looked, opening);
    if !has_line_end(&text[looked.saturating_sub(1)..]) {
        return Ok(Look::Unknown(opening));
    }
    match opening {
        Opening::Blank => Ok(Look::Unknown(Opening::Blank)),
        Opening::Begun => begin(alloc, text),
        Opening::Matrix(pending) => read_on(text, pending),
    }
}

/// What the bytes begin with, by what the first ones do.
fn longer(text: &[u8], looked: usize, opening: Opening) -> Opening
    requires within { looked ≤ length text.now }
    requires seen { OpeningMeans (take looked text.now) opening }
    ensures { OpeningMeans text.now result }
{
    match opening {
        Opening::Blank => {
            if gaps_end(text, looked) == text.len() {
                Opening::Blank
            } else {
                Opening::Begun
            }
        }
        Opening::Begun => Opening::Begun,
        Opening::Matrix(pending) => Opening::Matrix(pending),
    }
}

/// The first place from `from` on whose byte is neither a blank nor a line end, or the number of bytes.
fn gaps_end(text: &[u8], from: usize) -> usize
    requires { from ≤ length text.now }
    ensures gaps { (k : ℕ) → from ≤ k → k < result → is_gap (slice_index text.now k) ≡ true }
    ensures least { from ≤ result }
    ensures most { result ≤ length text.now }
{
    for at in from..text.len() {
        let byte = text[at];
        if !(byte == b'\n' || byte == b' ' || byte == b'\t' || byte == b'\r') {
            return at;
        }
    }
    text.len()
}

/// Whether there is a line end.
fn has_line_end(bytes: &[u8]) -> bool
    ensures { IsTrue result ↔ Contains bytes.now line_feed }
{
    bytes.contains(&b'\n')
}

/// Looks at the first item of the bytes.
fn begin(alloc: Global, text: &[u8]) -> Result<Look, NoMemory>
    ensures { IfOk result (LookMeans text.now) }
{
    match first_item(alloc, text)? {
        Found::Given(item, end) if text[end - 1] == b'\n' => Ok(Look::Known(item, end)),
        Found::Faulty(fault) if fault.end < text.len() => Ok(Look::Faulty(fault)),
        Found::Faulty(_) => match begun_matrix(alloc, text)? {
            Some(pending) => Ok(Look::Unknown(Opening::Matrix(pending))),
            None => Ok(Look::Unknown(Opening::Begun)),
        },
        _ => Ok(Look::Unknown(Opening::Begun)),
    }
}

/// The matrix that the bytes begin with, where its header's line end and a byte behind it are there.
fn begun_matrix(alloc: Global, text: &[u8]) -> Result<Option<Pending>, NoMemory>
    ensures { IfOk result (λ begun. IfSome begun (MatrixSoFar text.now)) }
{
    let Mark::Word(token) = next_mark(text, 0) else {
        return Ok(None);
    };
    let place = line_end(text, token.at);
    if place == text.len() {
        return Ok(None);
    }
    let Line::Numbers(numbers) = read_line(alloc, text, token.at)? else {
        return Ok(None);
    };
    let [lines, columns] = numbers.as_slice() else {
        return Ok(None);
    };
    let left = u128::from(lines.value) * u128::from(columns.value);
    if left == 0 {
        return Ok(None);
    }
    Ok(Some(Pending {
        lines: lines.value,
        columns: columns.value,
        entries: Vec::new(alloc),
        place,
        left,
    }))
}

/// Reads the further entries of a matrix. An entry at the end of the bytes may go on behind it.
fn read_on(text: &[u8], pending: Pending) -> Result<Look, NoMemory>
    requires { MatrixSoFar text.now pending }
    ensures { IfOk result (LookMeans text.now) }
{
    let mut pending = pending;
    while pending.left > 0 {
        match next_entry(text, pending.place) {
            Part::Entry(entry, end) if end < text.len() => {
                pending.entries.push(entry)?;
                pending.place = end;
                pending.left -= 1;
            }
            Part::Fault(fault) if fault.end < text.len() => return Ok(Look::Faulty(fault)),
            Part::Missing => {
                pending.place = text.len();
                return Ok(Look::Unknown(Opening::Matrix(pending)));
            }
            _ => return Ok(Look::Unknown(Opening::Matrix(pending))),
        }
    }
    let end = line_end(text, pending.place);
    if text[end - 1] != b'\n' {
        return Ok(Look::Unknown(Opening::Matrix(pending)));
    }
    let item = Item::Points(Matrix {
        lines: pending.lines,
        columns: pending.columns,
        entries: pending.entries,
    });
    Ok(Look::Known(item, end))
}
