//! Texts, and what is reported of them.

use crate::runs::{Case, NOTHING, PLAIN, TRIANGLE, answer_to, are_answered, done, is_answered};
use std::test::Fail;

fn refused(text: &'static str, note: &'static str) -> Case {
    Case {
        words: PLAIN,
        text,
        report: "",
        note,
        status: 4,
    }
}

fn faulty(text: &'static str, note: &'static str) -> Case {
    Case {
        words: PLAIN,
        text,
        report: "",
        note,
        status: 3,
    }
}

/// The corners of a hexagon, each with a space behind it.
const HEXAGON: [&str; 6] = ["-1 0 ", "0 -1 ", "1 -1 ", "1 0 ", "0 1 ", "-1 1 "];

/// Those of a square, each with its line end.
const SQUARE: [&str; 4] = ["1 1\n", "1 -1\n", "-1 1\n", "-1 -1\n"];

/// Two hexagons and a square in planes of their own, whose hull has 6 times 6 times 4 facets.
const MANY_FACETS: &str = "16 6\n\
    1 0 0 0 0 0\n\
    1 1 0 0 0 0\n\
    0 1 0 0 0 0\n\
    -1 0 0 0 0 0\n\
    -1 -1 0 0 0 0\n\
    0 -1 0 0 0 0\n\
    0 0 1 0 0 0\n\
    0 0 1 1 0 0\n\
    0 0 0 1 0 0\n\
    0 0 -1 0 0 0\n\
    0 0 -1 -1 0 0\n\
    0 0 0 -1 0 0\n\
    0 0 0 0 1 0\n\
    0 0 0 0 -1 0\n\
    0 0 0 0 0 1\n\
    0 0 0 0 0 -1\n";

#[test]
fn matrices_are_reported(rt: HostRuntime) -> Result<(), Fail> {
    let cases = [
        done(TRIANGLE, "M:11 3 F:3\n"),
        done("3 2\n-1 -1\n3 -1\n-1 2", "M:11 3 F:3\n"),
        done("6 2\n1 1\n1 -1\n-1 1\n-1 -1\n0 0\n1 1\n", "M:9 4 F:4\n"),
        done("3 2\n0 0\n179 0\n0 179\n", "M:16290 3 F:3\n"),
        done("1 3\n5 -2 1\n", "M:8 2 F:2\n"),
        done("1 2\n-8192 8191\n", "M:16384 2 F:2\n"),
        done(
            "2 6\n1 1 0 -1 -1 0\n0 1 1 0 -1 -1\n6 2\n1 0\n1 1\n0 1\n-1 0\n-1 -1\n0 -1\n",
            "M:7 6 F:6\nM:7 6 F:6\n",
        ),
        done("2 4\n-1 2 -1 -1\n-1 -1 2 -1\n", "M:10 3 F:3\n"),
        done(
            "6 3 octahedron\n1 0 0 -1 0 0 0\n\n 1 0 0 -1 0 0 0 1 0 0 -1\n",
            "M:7 6 F:8\n",
        ),
        done(
            "7 6\n0 0 0 0 0 0\n1019 0 0 0 0 0\n0 1 0 0 0 0\n0 0 1 0 0 0\n0 0 0 1 0 0\n0 0 0 0 1 0\n0 0 0 0 0 1\n",
            "M:1025 7 F:7\n",
        ),
    ];
    assert!(rt; are_answered(&rt, &cases)?);
    Ok(())
}

#[test]
fn weight_lines_are_reported(rt: HostRuntime) -> Result<(), Fail> {
    let cases = [
        done("", ""),
        done("\n \t\r\n", ""),
        done("3 1 1 1\n", "3 1 1 1 M:10 3 F:3\n"),
        done("2 1 1 0 0 2 0 0 1 1", "2 1 1 0 0 2 0 0 1 1 M:9 4 F:4\n"),
        done(
            "02 1 01 -0 0 2 0 0 1 1 x /Z\n",
            "2 1 1 0 0 2 0 0 1 1 M:9 4 F:4\n",
        ),
        done("5 1 1 3\n", "5 1 1 3 M:9 4 F:4\n"),
        done(
            "3 1 1 1 M:10 \x01\n3 2\n-1 -1\n3 -1\n-1 2 /Z\n3 1 1 1",
            "3 1 1 1 M:10 3 F:3\nM:11 3 F:3\n3 1 1 1 M:10 3 F:3\n",
        ),
    ];
    assert!(rt; are_answered(&rt, &cases)?);
    Ok(())
}

#[test]
fn the_quintic_is_reported(rt: HostRuntime) -> Result<(), Fail> {
    let case = done("5 1 1 1 1 1 M:126 5\n", "5 1 1 1 1 1 M:126 5 F:5\n");
    assert!(rt; is_answered(&rt, &case, 5000, NOTHING)?);
    Ok(())
}

#[test]
fn matrices_are_refused_by_name(rt: HostRuntime) -> Result<(), Fail> {
    let cases = [
        refused("3 2\n0 0\n1 1\n2 2\n", "palp: item 1: flat: -1 1 0\n"),
        refused("2 3\n0 1 2\n0 1 2\n", "palp: item 1: flat: -1 1 0\n"),
        refused("3 2\n5 -1\n5 7\n5 2\n", "palp: item 1: flat: 1 0 -5\n"),
        refused("2 2\n0 0\n1 1\n", "palp: item 1: flat: -1 1 0\n"),
        refused(
            "3 2\n0 0\n180 0\n0 180\n",
            "palp: item 1: limit Points: 16385\n",
        ),
        refused("1 2\n-8192 8192\n", "palp: item 1: limit Points: 16385\n"),
        refused("0 5\n3 1 1 1\n", "palp: item 1: limit Dim: 0\n"),
        refused(
            "7 8\n0 0 0 0 0 0 0 0\n0 0 0 0 0 0 0 0\n0 0 0 0 0 0 0 0\n0 0 0 0 0 0 0 0\n\
             0 0 0 0 0 0 0 0\n0 0 0 0 0 0 0 0\n0 0 0 0 0 0 0 0\n",
            "palp: item 1: limit Dim: 7\n",
        ),
        refused(
            "7 6\n0 0 0 0 0 0\n1020 0 0 0 0 0\n0 1 0 0 0 0\n0 0 1 0 0 0\n0 0 0 1 0 0\n0 0 0 0 1 0\n0 0 0 0 0 1\n",
            "palp: item 1: limit Size: 1025\n",
        ),
    ];
    assert!(rt; are_answered(&rt, &cases)?);
    Ok(())
}

#[test]
fn weight_lines_are_refused_by_name(rt: HostRuntime) -> Result<(), Fail> {
    let cases = [
        refused("5 2 3\n", "palp: item 1: flat: 1 0\n"),
        refused("2 1 1 3 1 2\n", "palp: item 1: limit Dim: 0\n"),
        refused("8 1 1 1 1 1 1 1 1\n", "palp: item 1: limit Dim: 7\n"),
        refused(
            "1 1 1 1 1 1 1 1 1 1 1 1 1 1\n",
            "palp: item 1: limit Systems: 7\n",
        ),
        refused(
            "13 1 1 1 1 1 1 1 1 1 1 1 1 1\n",
            "palp: item 1: limit Weights: 13\n",
        ),
        refused("40000 20000 20000\n", "palp: item 1: limit Degree: 40000\n"),
        refused(
            "20000 10000 10000 0 0 0 0 20000 0 0 10000 10000 0 0 20000 0 0 0 0 10000 10000\n",
            "palp: item 1: limit DegreeProduct: 8000000000000\n",
        ),
        refused(
            "32015 8000 8001 8002 8004 8\n",
            "palp: item 1: limit Frame: 64000000000000\n",
        ),
        refused(
            "16 1 1 1 1 1 1 10\n",
            "palp: item 1: limit Monomials: 16385\n",
        ),
        refused(
            "8037 1 995 7023 18 6 0 1 2 3\n",
            "palp: item 1: limit Size: 1073741825\n",
        ),
    ];
    assert!(rt; are_answered(&rt, &cases)?);
    Ok(())
}

#[test]
fn many_facets_are_refused(rt: HostRuntime) -> Result<(), Fail> {
    let case = refused(MANY_FACETS, "palp: item 1: limit Facets: 144\n");
    assert!(rt; is_answered(&rt, &case, 5000, NOTHING)?);
    Ok(())
}

/// The product of two hexagons and a square, whose hull has 144 vertices and 16 facets.
#[test]
fn many_vertices_are_refused(rt: HostRuntime) -> Result<(), Fail> {
    let mut text = Vec::from_slice(rt.alloc(), b"144 6\n")?;
    for place in 0..144 {
        text.extend_from_slice(HEXAGON[place / 24].as_bytes())?;
        text.extend_from_slice(HEXAGON[place / 4 % 6].as_bytes())?;
        text.extend_from_slice(SQUARE[place % 4].as_bytes())?;
    }
    let answer = answer_to(&rt, PLAIN, &text, 4096, NOTHING)?;
    assert_eq!(rt; answer.status, 4);
    assert!(rt; answer.report.is_empty());
    assert!(rt; answer.note.as_slice() == b"palp: item 1: limit Vertices: 144\n".as_slice());
    Ok(())
}

#[test]
fn large_headers_are_refused(rt: HostRuntime) -> Result<(), Fail> {
    let mut text = Vec::from_slice(rt.alloc(), b"16385 1\n")?;
    for _ in 0..16_385 {
        text.extend_from_slice(b"0 ")?;
    }
    let answer = answer_to(&rt, PLAIN, &text, 4096, NOTHING)?;
    assert_eq!(rt; answer.status, 4);
    assert!(rt; answer.report.is_empty());
    assert!(rt; answer.note.as_slice() == b"palp: item 1: limit Input: 16385\n".as_slice());
    Ok(())
}

#[test]
fn faults_of_texts_are_told(rt: HostRuntime) -> Result<(), Fail> {
    let cases = [
        faulty("5 1 1 1 1\n", "palp: line 1 column 1: WeightSum\n"),
        faulty(
            "5 1 1 1 1 1 /Z5: 0 1 2 3 4\n",
            "palp: line 1 column 13: Quotient\n",
        ),
        faulty("7\n", "palp: line 1 column 1: NoWeights\n"),
        faulty("x\n", "palp: line 1 column 1: BadNumber\n"),
        faulty("3 1 1 1 0\n", "palp: line 1 column 9: ZeroColumn\n"),
        faulty("2 1 1 0 0 2 0 1 1\n", "palp: line 1 column 11: Lengths\n"),
        faulty("3 1 1 -1 2\n", "palp: line 1 column 7: NumberRange\n"),
        faulty("\x1f", "palp: line 1 column 1: BadByte\n"),
        Case {
            report: "3 1 1 1 M:10 3 F:3\n",
            ..faulty(
                "3 1 1 1\n2 3\n0 1 0\n",
                "palp: line 2 column 1: MatrixShort\n",
            )
        },
    ];
    assert!(rt; are_answered(&rt, &cases)?);
    Ok(())
}

#[test]
fn items_before_a_refusal_are_reported(rt: HostRuntime) -> Result<(), Fail> {
    let mut text = Vec::new(rt.alloc());
    let mut report = Vec::new(rt.alloc());
    for _ in 0..9 {
        text.extend_from_slice(b"3 1 1 1\n")?;
        report.extend_from_slice(b"3 1 1 1 M:10 3 F:3\n")?;
    }
    text.extend_from_slice(b"5 2 3\nx\n")?;
    let answer = answer_to(&rt, PLAIN, &text, 7, NOTHING)?;
    assert_eq!(rt; answer.status, 4);
    assert!(rt; answer.report == report);
    assert!(rt; answer.note.as_slice() == b"palp: item 10: flat: 1 0\n".as_slice());
    Ok(())
}

#[test]
fn items_before_the_text_limit_are_reported(rt: HostRuntime) -> Result<(), Fail> {
    let blanks = [b' '; 4096];
    let mut text = Vec::with_capacity(rt.alloc(), 67_108_865)?;
    text.extend_from_slice(b"3 1 1 1\n")?;
    for _ in 0..16_383 {
        text.extend_from_slice(&blanks)?;
    }
    text.extend_from_slice(&blanks[..4089])?;
    assert_eq!(rt; text.len(), 67_108_865);
    let answer = answer_to(&rt, PLAIN, &text, 4096, NOTHING)?;
    assert_eq!(rt; answer.status, 5);
    assert!(rt; answer.report.as_slice() == b"3 1 1 1 M:10 3 F:3\n".as_slice());
    assert!(rt; answer.note.as_slice() == b"palp: text limit\n".as_slice());
    Ok(())
}

#[test]
fn a_thousand_weight_lines_are_reported(rt: HostRuntime) -> Result<(), Fail> {
    let mut text = Vec::new(rt.alloc());
    let mut report = Vec::new(rt.alloc());
    for _ in 0..1000 {
        text.extend_from_slice(b"3 1 1 1\n")?;
        report.extend_from_slice(b"3 1 1 1 M:10 3 F:3\n")?;
    }
    let answer = answer_to(&rt, PLAIN, &text, 4096, NOTHING)?;
    assert_eq!(rt; answer.status, 0);
    assert!(rt; answer.report == report);
    Ok(())
}
