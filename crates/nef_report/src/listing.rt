//! The nef partitions of an item.
ghost use Rattle.std.specs.Prelude.{◌≤◌, MatchResult};
ghost use Rattle.lattice_core.specs.Stops.{Stops};
ghost use Rattle.palp_input.specs.Grammar.{listed};
ghost use Rattle.palp_input.specs.Items.{IsItem};
ghost use Rattle.item_polytopes.specs.Kinds.{HasPair};
ghost use Rattle.nef_report.specs.Items.{AreFewParts, ArePartsRefused, IsListed};
ghost use Rattle.nef_report.specs.Answers.{ListingMeans};

use crate::NefFault;
use crate::lines::{give, give_body, give_count, give_heading};
use crate::pieces::write_piece;
use cayley::{rank_limits, scan_limits};
use dual_pair::{DualPair, Kind};
use item_polytopes::kind_of_item;
use lattice_core::{Fault, LimitName, Refusal};
use nef_numbers::ConeRooms;
use nef_parts::{Masks, NefSearch};
use palp_input::Item;
use palp_io::Sink;
use palp_print::Page;
use palp_words::NefWords;
use std::alloc::Global;

/// The most nef partitions of an item that are listed. This project's own.
pub const MOST_PARTITIONS: u64 = 1_048_576;

/// Whether so many parts are within the limits that stand for what the words ask.
fn parts_limits(alloc: Global, words: &NefWords, pair: &DualPair) -> Result<(), Fault>
    ensures { MatchResult result
        (λ done. AreFewParts words.now.list_only pair.now words.now.codim)
        (Stops (ArePartsRefused words.now.list_only pair.now words.now.codim)) }
{
    if words.list_only {
        rank_limits(pair, words.codim)?;
        return Ok(());
    }
    scan_limits(alloc, pair, words.codim)
}

/// Gives the first line of a reflexive item, its nef partitions as they are found, and how many there are.
fn list_of_pair<O: Sink>(
    alloc: Global,
    page: &mut Page,
    rooms: &mut ConeRooms,
    words: &NefWords,
    item: &Item,
    pair: &DualPair,
    out: &mut O,
) -> Result<(), NefFault>
    requires some { 1 ≤ words.now.codim }
    requires listed { IsListed words.now (listed item.now) pair.now }
    ensures { ListingMeans result words.now (listed item.now) (O.state out.old) (O.state out.new) }
{
    give_heading(page, words.codim, item, pair, out)?;
    let mut search = NefSearch::new(alloc, Masks::of(alloc, pair)?, words.codim)?;
    for count in 0..MOST_PARTITIONS {
        match search.next()? {
            Some(partition) => {
                write_piece(alloc, page, rooms, words, count + 1, pair, &partition)?;
                give(page, out)?;
            }
            None => return give_count(page, count, out),
        }
    }
    match search.next()? {
        Some(_) => {
            let told = u128::from(MOST_PARTITIONS) + 1;
            Err(NefFault::Refused(Refusal::Limit(LimitName::Partitions, told)))
        }
        None => give_count(page, MOST_PARTITIONS, out),
    }
}

/// Gives what is said of a reflexive item, or answers that so many parts exceed a limit.
fn list_within<O: Sink>(
    alloc: Global,
    page: &mut Page,
    rooms: &mut ConeRooms,
    words: &NefWords,
    item: &Item,
    pair: &DualPair,
    out: &mut O,
) -> Result<(), NefFault>
    requires some { 1 ≤ words.now.codim }
    requires pair { HasPair (listed item.now) pair.now }
    ensures { ListingMeans result words.now (listed item.now) (O.state out.old) (O.state out.new) }
{
    parts_limits(alloc, words, pair)?;
    list_of_pair(alloc, page, rooms, words, item, pair, out)
}

/// Gives what `nef` says of an item, one piece after another: of a polytope that isn't reflexive the line of its numbers of lattice points,
/// vertices and facets; of a reflexive one the line of these numbers and those of its dual, then each of its nef partitions into `codim` parts, which
/// is at least 1, in lexicographic order and with its number, and then how many there are. Where partitions aren't only listed, each of them stands
/// with the Hodge numbers of one line and the Euler number, and, where the diamond is asked, with all Hodge numbers below. A partition is given as it is
/// found; no list is kept. The page is used for each piece, and what stood on it is lost; the rooms serve again after every answer.
///
/// `Ok` comes only where the item isn't refused, and appends all its pieces. `Refused` comes only with the item's first refusal, behind the pieces
/// before it: the refusals of its polytope, of its dual, of its number of parts and, where numbers are told, of the lattice points of a large dilate;
/// and then, partition by partition, of a number of 1,048,577, and of the faces, vectors and coefficients of its cone. `Write` comes only where the
/// count of faults of `out` rose in this call; with it and with `NoMemory` a front of the pieces was appended. Source: alg-geom/9509009, nef partitions
/// and their stringy numbers; the lines and limits are this project's own.
pub fn list_partitions<O: Sink>(
    alloc: Global,
    page: &mut Page,
    rooms: &mut ConeRooms,
    words: &NefWords,
    item: &Item,
    out: &mut O,
) -> Result<(), NefFault>
    requires some { 1 ≤ words.now.codim }
    requires item { IsItem (listed item.now) }
    ensures { ListingMeans result words.now (listed item.now) (O.state out.old) (O.state out.new) }
{
    match kind_of_item(alloc, item)? {
        Kind::Other(polytope) => give_body(page, item, &polytope, out),
        Kind::Reflexive(pair) => list_within(alloc, page, rooms, words, item, &pair, out),
    }
}
