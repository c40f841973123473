// The first item of a text.
ghost use Rattle.std.specs.Prelude.{◌≡◌, ℕ, ◌≤◌, List, length, map, IfOk, MatchOption};
ghost use Rattle.palp_input.specs.Lines.{fault_at};
ghost use Rattle.palp_input.specs.SystemSteps.{placed_of};
ghost use Rattle.palp_input.specs.ItemSteps.{IsLineEnd, StartsAt};
ghost use Rattle.palp_input.specs.Grammar.{Nothing, Faulty, next_of, numbers_item, header_item, weights_item, summed_item};
ghost use Rattle.palp_input.specs.declared.fault.TextKind.TheVariants.{NoWeights};
ghost use Rattle.palp_input.specs.ItemSteps.{EndsIn, EndsLine, told};

use crate::fault::{ItemFault, TextKind};
use crate::item::{Item, Matrix};
use crate::lines::{Line, LineNumber, read_line};
use crate::matrices::{Entries, read_entries};
use crate::pieces::{Mark, line_end, next_mark};
use crate::systems::{
    PlacedSystem, Systems, other_length, read_systems, without_places, zero_column,
};
use lattice_core::NoMemory;
use std::alloc::Global;

/// The first item of a text. Places are counted from 0.
#[derive(Debug, Drop, PartialEq, Eq)]
pub enum Found {
    /// There is none.
    Nothing,
    /// The item, and the place behind its last byte.
    Given(Item, usize),
    /// It is faulty.
    Faulty(ItemFault),
}

/// The first item of the text.
pub fn first_item(alloc: Global, text: &[u8]) -> Result<Found, NoMemory>
    ensures means { IfOk result (λ found. told found ≡ next_of text.now) }
    ensures ends { IfOk result (EndsIn (length text.now)) }
    ensures line { IfOk result (EndsLine text.now) }
{
    let Some(start) = item_start(text) else {
        return Ok(Found::Nothing);
    };
    let end = line_end(text, start);
    match read_line(alloc, text, start)? {
        Line::Fault(fault) => Ok(Found::Faulty(fault)),
        Line::Numbers(numbers) => numbers_item(alloc, text, end, &numbers),
    }
}

/// The place of the first piece that isn't a line end.
fn item_start(text: &[u8]) -> Option<usize>
    ensures { MatchOption result (next_of text.now ≡ Nothing) (StartsAt text.now) }
{
    match next_mark(text, 0) {
        Mark::Nothing => None,
        Mark::BadByte(at) => Some(at),
        Mark::Word(token) => Some(token.at),
    }
}

/// What the numbers of a first line with this end are.
fn numbers_item(
    alloc: Global,
    text: &[u8],
    end: usize,
    numbers: &[LineNumber],
) -> Result<Found, NoMemory>
    requires some { 1 ≤ end }
    requires most { end ≤ length text.now }
    requires line { IsLineEnd text.now end }
    ensures means { IfOk result (λ found. told found ≡ numbers_item text.now end numbers.now) }
    ensures ends { IfOk result (EndsIn (length text.now)) }
    ensures line { IfOk result (EndsLine text.now) }
{
    match numbers {
        [] => Ok(Found::Nothing),
        [lines, columns] => header_item(alloc, text, end, *lines, *columns),
        [first] => Ok(no_weights(*first, end)),
        [first, ..] if first.value == 0 => Ok(no_weights(*first, end)),
        _ => weights_item(alloc, numbers, end),
    }
}

/// The fault of a line without weights.
fn no_weights(first: LineNumber, end: usize) -> Found
    ensures means { told result ≡ Faulty (fault_at NoWeights first.at end) }
    ensures ends { (size : ℕ) → end ≤ size → EndsIn size result }
    ensures line { (text : List ℕ) → EndsLine text result }
{
    Found::Faulty(ItemFault {
        kind: TextKind::NoWeights,
        at: first.at,
        end,
    })
}

/// The item of a header whose line has this end.
fn header_item(
    alloc: Global,
    text: &[u8],
    end: usize,
    lines: LineNumber,
    columns: LineNumber,
) -> Result<Found, NoMemory>
    requires some { 1 ≤ end }
    requires most { end ≤ length text.now }
    requires line { IsLineEnd text.now end }
    ensures means { IfOk result (λ found. told found ≡ header_item text.now end lines columns) }
    ensures ends { IfOk result (EndsIn (length text.now)) }
    ensures line { IfOk result (EndsLine text.now) }
{
    let count = u128::from(lines.value) * u128::from(columns.value);
    match read_entries(alloc, text, end, count)? {
        Entries::All(entries, after) => {
            let item = Item::Points(Matrix {
                lines: lines.value,
                columns: columns.value,
                entries,
            });
            let item_end = if count == 0 {
                end
            } else {
                line_end(text, after)
            };
            Ok(Found::Given(item, item_end))
        }
        Entries::Fault(fault) => Ok(Found::Faulty(fault)),
        Entries::TooFew => Ok(Found::Faulty(ItemFault {
            kind: TextKind::MatrixShort,
            at: lines.at,
            end: text.len(),
        })),
    }
}

/// The item of a weight line with this end.
fn weights_item(alloc: Global, numbers: &[LineNumber], end: usize) -> Result<Found, NoMemory>
    requires { 1 ≤ end }
    ensures means { IfOk result (λ found. told found ≡ weights_item end numbers.now) }
    ensures ends { IfOk result (EndsIn end) }
    ensures line { IfOk result (λ found. (text : List ℕ) → IsLineEnd text end → EndsLine text found) }
{
    match read_systems(alloc, numbers)? {
        Systems::WrongSum(at) => Ok(Found::Faulty(ItemFault {
            kind: TextKind::WeightSum,
            at,
            end,
        })),
        Systems::Summed(systems) => summed_item(alloc, &systems, end),
    }
}

/// The item of systems whose sums are right, on a line with this end.
fn summed_item(alloc: Global, systems: &[PlacedSystem], end: usize) -> Result<Found, NoMemory>
    requires { 1 ≤ end }
    ensures means { IfOk result (λ found. told found ≡ summed_item (map placed_of systems.now) end) }
    ensures ends { IfOk result (EndsIn end) }
    ensures line { IfOk result (λ found. (text : List ℕ) → IsLineEnd text end → EndsLine text found) }
{
    let Some((first, others)) = systems.split_first() else {
        return Ok(Found::Nothing);
    };
    if let Some(at) = other_length(others, first.weights.len()) {
        return Ok(Found::Faulty(ItemFault {
            kind: TextKind::Lengths,
            at,
            end,
        }));
    }
    if let Some(at) = zero_column(first.weights, systems) {
        return Ok(Found::Faulty(ItemFault {
            kind: TextKind::ZeroColumn,
            at,
            end,
        }));
    }
    let items = without_places(alloc, systems)?;
    Ok(Found::Given(Item::Weights(items), end))
}
