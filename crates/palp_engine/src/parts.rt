//! The nef partitions of an item.

ghost use Rattle.std.specs.Prelude.{◌≤◌};
ghost use Rattle.palp_words.specs.declared.job.Job.TheVariants as Job;
ghost use Rattle.palp_input.specs.Grammar.{listed};
ghost use Rattle.palp_input.specs.Items.{IsItem};
ghost use Rattle.palp_engine.specs.Entries.{item_entry};
ghost use Rattle.palp_engine.specs.Sessions.{EntryMeans};

use crate::session::ItemFault;
use nef_numbers::ConeRooms;
use nef_report::{NefFault, list_partitions};
use palp_input::Item;
use palp_io::Sink;
use palp_print::Page;
use palp_words::NefWords;
use std::alloc::Global;

impl From<NefFault> for ItemFault {
    ghost use Rattle.palp_engine.specs.RunSteps.{IsListStop};

    ghost from_gives = { λ fault item. IsListStop fault item };

    fn from(fault: NefFault) -> ItemFault {
        match fault {
            NefFault::Refused(cause) => ItemFault::Refused(cause),
            NefFault::Write => ItemFault::Write,
            NefFault::NoMemory => ItemFault::NoMemory,
        }
    }
}

/// Gives the pieces of an item that `nef` says with these words.
pub(crate) fn report_parts<O: Sink>(
    alloc: Global,
    page: &mut Page,
    rooms: &mut ConeRooms,
    words: &NefWords,
    item: &Item,
    out: &mut O,
) -> Result<(), ItemFault>
    requires some { 1 ≤ words.now.codim }
    requires item { IsItem (listed item.now) }
    ensures { EntryMeans result (Job.Nef words.now) (item_entry item.now) (O.state out.old) (O.state out.new) }
{
    list_partitions(alloc, page, rooms, words, item, out)?;
    Ok(())
}
