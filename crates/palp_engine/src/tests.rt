//! The report of one item and of several, and a whole run.

ghost use Rattle.std.specs.Prelude.{IfOk};
ghost use Rattle.palp_input.specs.Grammar.{listed};
ghost use Rattle.palp_input.specs.Items.{IsItem};
ghost use Rattle.palp_engine.specs.Commands.{HasSomeParts, ReadsText};

use crate::{ItemFault, Outcome, Session, report_item, run};
use lattice_core::Refusal;
use palp_input::{Item, Matrix};
use palp_io::{MemSink, MemSource};
use palp_words::{Job, PolyFlags};
use std::alloc::Global;
use std::test::Fail;

/// `poly` with these letters of `g`, `p`, `v`, `e` and `m`, and with `n`.
fn letters(general: bool, points: bool, vertices: bool, equations: bool, matrix: bool) -> Job
    ensures parts { HasSomeParts result }
    ensures reads { ReadsText result }
{
    Job::Poly(PolyFlags {
        general,
        points,
        vertices,
        equations,
        matrix,
        dual_points: false,
        incidence: false,
        reflexive_only: false,
        dual_input: false,
        plain: true,
    })
}

fn triangle(alloc: Global) -> Result<Item, Fail>
    ensures { IfOk result (λ item. IsItem (listed item)) }
{
    let entries = vec![in alloc; -1, -1, 3, -1, -1, 2]?;
    Ok(Item::Points(Matrix {
        lines: 3,
        columns: 2,
        entries,
    }))
}

fn flat_points(alloc: Global) -> Result<Item, Fail>
    ensures { IfOk result (λ item. IsItem (listed item)) }
{
    let entries = vec![in alloc; 0, 0, 1, 1, 2, 2]?;
    Ok(Item::Points(Matrix {
        lines: 3,
        columns: 2,
        entries,
    }))
}

#[test]
fn reports_an_item_behind_a_refused_one(rt: HostRuntime) -> Result<(), Fail> {
    let alloc = rt.alloc();
    let flat = flat_points(alloc)?;
    let item = triangle(alloc)?;
    let plain = letters(true, false, false, false, false);
    let mut session = Session::open(alloc)?;
    let mut out = MemSink::new(alloc, 100, Vec::new(alloc))?;
    let refused = report_item(&mut session, &plain, &flat, &mut out);
    assert!(rt; matches!(refused, Err(ItemFault::Refused(Refusal::Flat(_)))));
    assert!(rt; out.given().is_empty());
    assert!(rt; report_item(&mut session, &plain, &item, &mut out) == Ok(()));
    assert!(rt; out.given() == b"M:11 3 F:3\n".as_slice());
    Ok(())
}

#[test]
fn reports_items_one_after_another(rt: HostRuntime) -> Result<(), Fail> {
    let alloc = rt.alloc();
    let item = triangle(alloc)?;
    let plain = letters(true, false, false, false, false);
    let mut session = Session::open(alloc)?;
    let mut out = MemSink::new(alloc, 15, Vec::new(alloc))?;
    assert!(rt; report_item(&mut session, &plain, &item, &mut out) == Ok(()));
    assert!(rt; out.given() == b"M:11 3 F:3\n".as_slice());
    assert!(rt; report_item(&mut session, &plain, &item, &mut out) == Err(ItemFault::Write));
    Ok(())
}

#[test]
fn runs_a_command(rt: HostRuntime) -> Result<(), Fail> {
    let alloc = rt.alloc();
    let text = Vec::from_slice(alloc, b"3 1 1 1\n")?;
    let mut source = MemSource::new(text, 7, Vec::new(alloc));
    let mut out = MemSink::new(alloc, 100, Vec::new(alloc))?;
    let mut notes = MemSink::new(alloc, 100, Vec::new(alloc))?;
    let words = vec![in alloc;
        String::from_str(alloc, "poly")?,
        String::from_str(alloc, "-n")?,
    ]?;
    let outcome = run(alloc, words.as_slice(), &mut source, &mut out, &mut notes);
    assert!(rt; matches!(outcome, Outcome::Done));
    assert_eq!(rt; outcome.code(), 0);
    assert!(rt; out.given() == b"3 1 1 1 M:10 3 F:3\n".as_slice());
    Ok(())
}

#[test]
fn reports_the_blocks_that_are_asked(rt: HostRuntime) -> Result<(), Fail> {
    let alloc = rt.alloc();
    let item = triangle(alloc)?;
    let job = letters(false, true, true, true, true);
    let mut session = Session::open(alloc)?;
    let mut out = MemSink::new(alloc, 300, Vec::new(alloc))?;
    assert!(rt; report_item(&mut session, &job, &item, &mut out) == Ok(()));
    let points = "2 11 Points\n-1 -1 -1 -1 0 0 0 1 1 2 3\n-1 0 1 2 -1 0 1 -1 0 -1 -1\n";
    let rest =
        "2 3 Vertices\n-1 -1 3\n-1 2 -1\nEquations 3 2\n-3 -4 5\n0 1 1\n1 0 1\nPairing 3 3\n12 0 0\n0 3 0\n0 0 4\n";
    assert!(rt; out.given().starts_with(points.as_bytes()));
    assert!(rt; out.given().ends_with(rest.as_bytes()));
    assert_eq!(rt; out.given().len(), points.len() + rest.len());
    Ok(())
}
