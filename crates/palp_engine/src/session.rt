//! A session, and the report of one item.

ghost use Rattle.std.specs.Prelude.{◌≡◌};
ghost use Rattle.palp_words.specs.declared.job.Job.TheVariants as Job;
ghost use Rattle.palp_input.specs.Grammar.{listed};
ghost use Rattle.palp_input.specs.Items.{IsItem};
ghost use Rattle.palp_engine.specs.Commands.{HasSomeParts, ReadsText};
ghost use Rattle.palp_engine.specs.Entries.{item_entry};
ghost use Rattle.palp_engine.specs.Sessions.{EntryMeans};

use crate::faces::Faces;
use crate::parts::report_parts;
use crate::pieces::write_piece;
use lattice_core::{Fault, NoMemory, Refusal};
use nef_numbers::ConeRooms;
use palp_input::Item;
use palp_io::{Gave, Sink};
use palp_print::Page;
use palp_words::{Job, PolyFlags};
use std::alloc::Global;
use std::marker::Model;

/// Why the report of an item isn't given whole.
#[derive(Clone, Debug, Drop, PartialEq, Eq)]
pub enum ItemFault {
    /// The item is refused.
    Refused(Refusal),
    /// The sink failed.
    Write,
    /// There was no memory.
    NoMemory,
}

impl From<Fault> for ItemFault {
    ghost use Rattle.palp_engine.specs.RunSteps.{IsItemStop};

    ghost from_gives = { λ fault item. IsItemStop fault item };

    fn from(fault: Fault) -> ItemFault {
        match fault {
            Fault::Refused(cause) => ItemFault::Refused(cause),
            Fault::NoMemory => ItemFault::NoMemory,
        }
    }
}

/// What is kept between the reports of items: the page on which pieces are written, the room in which the faces of polytopes are found, and that for
/// the cones of nef partitions.
#[derive(Drop)]
pub struct Session {
    alloc: Global,
    page: Page,
    faces: Faces,
    rooms: ConeRooms,
}

impl Model for Session {
    ghost Value = { Unit {0} };

    ghost view = { λ _. tt };
}

impl Session {
    /// A session that has reported nothing. `NoMemory` comes where its page, or a room for faces, finds no memory.
    pub fn open(alloc: Global) -> Result<Session, NoMemory> {
        Ok(Session {
            alloc,
            page: Page::new(alloc)?,
            faces: Faces::open(alloc)?,
            rooms: ConeRooms::open(alloc)?,
        })
    }
}

/// Gives the piece of an item that `poly` says with these letters, or none where it has none.
fn report_blocks<O: Sink>(
    session: &mut Session,
    flags: &PolyFlags,
    item: &Item,
    out: &mut O,
) -> Result<(), ItemFault>
    requires { IsItem (listed item.now) }
    ensures { EntryMeans result (Job.Poly flags.now) (item_entry item.now) (O.state out.old) (O.state out.new) }
{
    let wanted = write_piece(
        session.alloc,
        &mut session.page,
        &mut session.faces,
        flags,
        item,
    )?;
    if !wanted {
        return Ok(());
    }
    match out.give(session.page.bytes()) {
        Gave::All => Ok(()),
        Gave::Failed => Err(ItemFault::Write),
    }
}

/// Gives the pieces of one item to `out`, one after another, as the job says them: `poly` or `nef`, which asks for one part or more. `poly` says of an
/// item one piece, the blocks that the letters ask (`run` tells them), or none where only reflexive polytopes are to be printed and its polytope isn't
/// one. `nef` says one line of a polytope that isn't reflexive, and of another one its first line, each nef partition, with its numbers where they are
/// asked, and how many there are. The item is one of a text. After every answer the session serves a next item.
///
/// `Ok` comes only where the item isn't refused, and appends all its pieces. `Refused` comes only with the item's first refusal, behind the
/// pieces before it, of which `poly` has none. `Write` comes only where the count of faults of `out` rose in this call, and `NoMemory` where
/// there is no memory for the item's points, its facets, its dual, the numbers of a partition or a piece; both leave a front of the item's pieces. So
/// where that count didn't rise the answer is `Ok`, that refusal or `NoMemory`. Where an item has no piece nothing is given.
pub fn report_item<O: Sink>(
    session: &mut Session,
    job: &Job,
    item: &Item,
    out: &mut O,
) -> Result<(), ItemFault>
    requires parts { HasSomeParts job.now }
    requires reads { ReadsText job.now }
    requires item { IsItem (listed item.now) }
    ensures { EntryMeans result job.now (item_entry item.now) (O.state out.old) (O.state out.new) }
{
    match job {
        Job::Poly(flags) => report_blocks(session, flags, item, out),
        Job::Nef(words) => report_parts(
            session.alloc,
            &mut session.page,
            &mut session.rooms,
            words,
            item,
            out,
        ),
        Job::Cws(_) => unreachable!(),
        Job::Sweep(_) => unreachable!(),
    }
}
