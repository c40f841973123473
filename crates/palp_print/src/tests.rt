//! Each layout, against its text.

use crate::{CountTitle, Note, Page, Title, note_line};
use batyrev::HodgeLine;
use lattice_core::{Functional, LimitName, Point, Refusal, WeightSystem};
use palp_input::{TextFault, TextKind};
use palp_words::{WordFault, WordKind};
use std::alloc::Global;
use std::test::Fail;

fn plane(alloc: Global) -> Result<WeightSystem, Fail> {
    Ok(WeightSystem {
        degree: 3,
        weights: vec![in alloc; 1, 1, 1]?,
    })
}

#[test]
fn prints_points_as_columns(rt: HostRuntime) -> Result<(), Fail> {
    let mut page = Page::new(rt.alloc())?;
    let first = Point::new(&[-1, -1]).expect(&rt, "two entries");
    let second = Point::new(&[-1, 2]).expect(&rt, "two entries");
    let third = Point::new(&[2, -1]).expect(&rt, "two entries");
    page.columns(Title::Vertices, &[first, second, third])?;
    assert!(rt; page.bytes() == b"2 3 Vertices\n-1 -1 2\n-1 2 -1\n".as_slice());
    page.clear();
    let point = Point::new(&[-1, 2]).expect(&rt, "two entries");
    page.columns(Title::DualPoints, &[point])?;
    assert!(rt; page.bytes() == b"2 1 Points of P-dual\n-1\n2\n".as_slice());
    Ok(())
}

#[test]
fn prints_normals(rt: HostRuntime) -> Result<(), Fail> {
    let mut page = Page::new(rt.alloc())?;
    let first = Functional::new(&[-1, -1], 1).expect(&rt, "two entries");
    let second = Functional::new(&[0, 1], 1).expect(&rt, "two entries");
    page.dual_rows(&[first, second])?;
    assert!(rt; page.bytes() == b"2 2 Vertices of P-dual\n-1 -1\n0 1\n".as_slice());
    Ok(())
}

#[test]
fn prints_equations(rt: HostRuntime) -> Result<(), Fail> {
    let mut page = Page::new(rt.alloc())?;
    let first = Functional::new(&[-3, -4], 5).expect(&rt, "two entries");
    let second = Functional::new(&[0, 1], 1).expect(&rt, "two entries");
    let third = Functional::new(&[1, 0], 1).expect(&rt, "two entries");
    page.equations(&[first, second, third])?;
    assert!(rt; page.bytes() == b"Equations 3 2\n-3 -4 5\n0 1 1\n1 0 1\n".as_slice());
    Ok(())
}

#[test]
fn prints_a_pair_with_its_numbers(rt: HostRuntime) -> Result<(), Fail> {
    let mut page = Page::new(rt.alloc())?;
    let numbers = HodgeLine::Three {
        h11: 1,
        h21: 101,
        euler: -200,
    };
    page.pair_line(126, 5, 6, 5, &numbers)?;
    assert!(rt; page.bytes() == b"M:126 5 N:6 5 H:1,101 [-200]\n".as_slice());
    Ok(())
}

#[test]
fn prints_a_pairing(rt: HostRuntime) -> Result<(), Fail> {
    let mut page = Page::new(rt.alloc())?;
    let facet = Functional::new(&[-1, -1], 1).expect(&rt, "two entries");
    let first = Point::new(&[-1, -1]).expect(&rt, "two entries");
    let second = Point::new(&[-1, 2]).expect(&rt, "two entries");
    page.pairing(&[facet], &[first, second])?;
    assert!(rt; page.bytes() == b"Pairing 1 2\n3 0\n".as_slice());
    Ok(())
}

#[test]
fn prints_incidences(rt: HostRuntime) -> Result<(), Fail> {
    let mut page = Page::new(rt.alloc())?;
    let facet = Functional::new(&[-1, -1], 1).expect(&rt, "two entries");
    let first = Point::new(&[-1, -1]).expect(&rt, "two entries");
    let second = Point::new(&[-1, 2]).expect(&rt, "two entries");
    page.incidence(&[3, 3], &[facet], &[first, second])?;
    assert!(rt; page.bytes() == b"Faces: 3 3\nIncidence 1 2\n01\n".as_slice());
    Ok(())
}

#[test]
fn prints_lines_one_after_another(rt: HostRuntime) -> Result<(), Fail> {
    let mut page = Page::new(rt.alloc())?;
    let system = plane(rt.alloc())?;
    page.weights(&system)?;
    page.echo(&[system])?;
    page.body_line(10, 3, 3)?;
    assert!(rt; page.bytes() == b"3 1 1 1\n3 1 1 1 M:10 3 F:3\n".as_slice());
    Ok(())
}

#[test]
fn prints_partitions(rt: HostRuntime) -> Result<(), Fail> {
    let mut page = Page::new(rt.alloc())?;
    page.nef_line(35, 4, 5, 4, 2)?;
    page.partition(2, &[0, 0, 1, 0])?;
    page.closing(CountTitle::Nef, 7)?;
    assert!(rt; page.bytes() == b"M:35 4 N:5 4 codim=2\nP:2 V:0 0 1 0\n#nef:7\n".as_slice());
    Ok(())
}

#[test]
fn prints_partitions_with_their_numbers(rt: HostRuntime) -> Result<(), Fail> {
    let mut page = Page::new(rt.alloc())?;
    page.partition_with(3, &[0, 0, 0, 0, 1, 1], &[1, 89], -176)?;
    page.diamond(1, &[1, 1, 1, 1])?;
    assert!(rt; page.bytes() == b"P:3 V:0 0 0 0 1 1 H:1,89 [-176]\nh0: 1 1\nh1: 1 1\n".as_slice());
    Ok(())
}

#[test]
fn prints_counts(rt: HostRuntime) -> Result<(), Fail> {
    let mut page = Page::new(rt.alloc())?;
    page.closing(CountTitle::Ip, 95)?;
    page.closing(CountTitle::Ref, 3)?;
    page.sweep_line(3, 3, 26, 16)?;
    assert!(rt; page.bytes() == b"#ip:95\n#ref:3\nsystems:3 reflexive:3 M:26 N:16\n".as_slice());
    Ok(())
}

#[test]
fn prints_notes(rt: HostRuntime) {
    let words = Note::Words(WordFault {
        index: 2,
        kind: WordKind::Flag,
    });
    assert!(rt; note_line(&words).as_slice() == b"palp: word 2: Flag\n".as_slice());
    let text = Note::Text(TextFault {
        line: 1,
        column: 13,
        kind: TextKind::Quotient,
    });
    assert!(rt; note_line(&text).as_slice() == b"palp: line 1 column 13: Quotient\n".as_slice());
    let flat = Functional::new(&[-1, 1], 0).expect(&rt, "two entries");
    let refused = Note::Refused(1, Refusal::Flat(flat));
    assert!(rt; note_line(&refused).as_slice() == b"palp: item 1: flat: -1 1 0\n".as_slice());
    let limit = Note::Refused(3, Refusal::Limit(LimitName::Points, 16_385));
    assert!(rt; note_line(&limit).as_slice() == b"palp: item 3: limit Points: 16385\n".as_slice());
    let faces = Note::Refused(2, Refusal::Limit(LimitName::Faces, 4_097));
    assert!(rt; note_line(&faces).as_slice() == b"palp: item 2: limit Faces: 4097\n".as_slice());
    assert!(rt; note_line(&Note::TextLimit).as_slice() == b"palp: text limit\n".as_slice());
}
