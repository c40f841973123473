//! What is given of a triangle and a square.

ghost use Rattle.std.specs.Prelude.{◌≡◌, IfOk};
ghost use Rattle.palp_input.specs.Grammar.{listed};
ghost use Rattle.palp_input.specs.Items.{IsItem};

use crate::{NefFault, list_partitions};
use lattice_core::{LimitName, Refusal};
use nef_numbers::ConeRooms;
use palp_input::{Item, Matrix};
use palp_io::MemSink;
use palp_print::Page;
use palp_words::NefWords;
use std::alloc::Global;
use std::test::Fail;

/// A triangle that isn't reflexive.
fn triangle(alloc: Global) -> Result<Item, Fail>
    ensures { IfOk result (λ item. IsItem (listed item)) }
{
    let entries = vec![in alloc; -1, -1, 3, -1, -1, 2]?;
    Ok(Item::Points(Matrix {
        lines: 3,
        columns: 2,
        entries,
    }))
}

fn square(alloc: Global) -> Result<Item, Fail>
    ensures { IfOk result (λ item. IsItem (listed item)) }
{
    let entries = vec![in alloc; 1, 1, -1, -1, 1, -1, 1, -1]?;
    Ok(Item::Points(Matrix {
        lines: 2,
        columns: 4,
        entries,
    }))
}

/// The words for one part or more, with the partitions alone or with all numbers.
fn words(codim: u32, list_only: bool) -> NefWords
    ensures { result.codim ≡ codim }
{
    NefWords {
        codim,
        list_only,
        full: !list_only,
    }
}

#[test]
fn lists_the_partitions_of_a_square(rt: HostRuntime) -> Result<(), Fail> {
    let alloc = rt.alloc();
    let item = square(alloc)?;
    let mut page = Page::new(alloc)?;
    let mut rooms = ConeRooms::open(alloc)?;
    let mut out = MemSink::new(alloc, 100, Vec::new(alloc))?;
    let one = words(1, true);
    assert!(rt; list_partitions(alloc, &mut page, &mut rooms, &one, &item, &mut out) == Ok(()));
    let text = b"M:9 4 N:5 4 codim=1\nP:1 V:0 0 0 0\n#nef:1\n";
    assert!(rt; out.given() == text.as_slice());
    let refused = Err(NefFault::Refused(Refusal::Limit(LimitName::Codim, 2)));
    let two = words(2, false);
    assert!(rt; list_partitions(alloc, &mut page, &mut rooms, &two, &item, &mut out) == refused);
    assert_eq!(rt; out.given().len(), text.len());
    Ok(())
}

#[test]
fn tells_the_numbers_of_a_square(rt: HostRuntime) -> Result<(), Fail> {
    let alloc = rt.alloc();
    let item = square(alloc)?;
    let mut page = Page::new(alloc)?;
    let mut rooms = ConeRooms::open(alloc)?;
    let mut out = MemSink::new(alloc, 100, Vec::new(alloc))?;
    let one = words(1, false);
    assert!(rt; list_partitions(alloc, &mut page, &mut rooms, &one, &item, &mut out) == Ok(()));
    let text = b"M:9 4 N:5 4 codim=1\nP:1 V:0 0 0 0 H:1 [0]\nh0: 1 1\nh1: 1 1\n#nef:1\n";
    assert!(rt; out.given() == text.as_slice());
    Ok(())
}

#[test]
fn tells_the_points_of_a_triangle(rt: HostRuntime) -> Result<(), Fail> {
    let alloc = rt.alloc();
    let item = triangle(alloc)?;
    let mut page = Page::new(alloc)?;
    let mut rooms = ConeRooms::open(alloc)?;
    let mut out = MemSink::new(alloc, 15, Vec::new(alloc))?;
    let two = words(2, false);
    assert!(rt; list_partitions(alloc, &mut page, &mut rooms, &two, &item, &mut out) == Ok(()));
    assert!(rt; out.given() == b"M:11 3 F:3\n".as_slice());
    let again = list_partitions(alloc, &mut page, &mut rooms, &two, &item, &mut out);
    assert!(rt; again == Err(NefFault::Write));
    Ok(())
}
