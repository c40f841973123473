//! The piece of a partition, on a page.
ghost use Rattle.std.specs.Prelude.{◌≡◌, ◌++◌, OnOk, MatchResult};
ghost use Rattle.lattice_core.specs.Stops.{Stops};
ghost use Rattle.nef_numbers.specs.Numbers.{IsPartitionInto};
ghost use Rattle.nef_report.specs.Items.{AreFewParts};
ghost use Rattle.nef_report.specs.Partitions.{numbers_text, IsPartPiece, IsPartRefusal};

use dual_pair::{DualPair, Partition};
use lattice_core::{Fault, NoMemory};
use nef_numbers::{ConeRooms, numbers_of};
use palp_print::Page;
use palp_words::NefWords;
use std::alloc::Global;
use stringy::EPoly;

/// Appends a partition with its number and its stringy numbers, and below its line all Hodge numbers where they are asked.
fn put_numbers(
    page: &mut Page,
    full: bool,
    number: u64,
    part_of: &[u8],
    numbers: &EPoly,
) -> Result<(), NoMemory>
    ensures { OnOk result (page.new ≡ page.old ++ numbers_text full number part_of.now numbers.now) }
{
    let first = numbers.first_numbers();
    page.partition_with(number, part_of, first.as_slice(), numbers.euler())?;
    if !full {
        return Ok(());
    }
    let all = numbers.diamond();
    page.diamond(numbers.dim(), all.as_slice())
}

/// Writes the piece of a partition on the page: its line, and with its numbers where they are asked, which may be refused.
pub(crate) fn write_piece(
    alloc: Global,
    page: &mut Page,
    rooms: &mut ConeRooms,
    words: &NefWords,
    number: u64,
    pair: &DualPair,
    partition: &Partition,
) -> Result<(), Fault>
    requires partition { IsPartitionInto pair.now words.now.codim partition.now.part_of.items partition.now.points.items }
    requires within { AreFewParts words.now.list_only pair.now words.now.codim }
    ensures { MatchResult result
        (λ done. IsPartPiece words.now pair.now number partition.now.part_of.items page.new)
        (Stops (IsPartRefusal words.now pair.now partition.now.part_of.items)) }
{
    page.clear();
    if words.list_only {
        page.partition(number, &partition.part_of)?;
        return Ok(());
    }
    let numbers = numbers_of(alloc, rooms, pair, partition, words.codim)?;
    put_numbers(page, words.full, number, &partition.part_of, &numbers)?;
    Ok(())
}
