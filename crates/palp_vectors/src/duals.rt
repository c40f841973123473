//! Reflexive polytopes with their duals, and Batyrev's numbers.

use crate::runs::{Case, TRIANGLE, are_answered, asked, failing_give, is_answered};
use std::test::Fail;

const HEXAGONS: &str = "2 6\n1 1 0 -1 -1 0\n0 1 1 0 -1 -1\n6 2\n1 0\n1 1\n0 1\n-1 0\n-1 -1\n0 -1\n";

const SMALL_TRIANGLE: &str = "3 2\n-1 -1\n0 1\n1 0\n";

const MIRROR_QUINTIC: &str = "5 4\n-1 -1 -1 -1\n1 0 0 0\n0 1 0 0\n0 0 1 0\n0 0 0 1\n";

/// A report of the letters that are none.
fn general(text: &'static str, report: &'static str) -> Case {
    asked(&["poly"], text, report)
}

/// A refusal of the first item.
fn refused(words: &'static [&'static str], text: &'static str, note: &'static str) -> Case {
    Case {
        note,
        status: 4,
        ..asked(words, text, "")
    }
}

#[test]
fn the_quintic_and_its_mirror_are_told(rt: HostRuntime) -> Result<(), Fail> {
    let cases = [
        general(
            "5 1 1 1 1 1\n",
            "5 1 1 1 1 1 M:126 5 N:6 5 H:1,101 [-200]\n",
        ),
        general(
            "5 1 1 1 1 1 M:126 5\n",
            "5 1 1 1 1 1 M:126 5 N:6 5 H:1,101 [-200]\n",
        ),
        general(MIRROR_QUINTIC, "M:6 5 N:126 5 H:101,1 [200]\n"),
        asked(
            &["poly", "-D"],
            MIRROR_QUINTIC,
            "M:126 5 N:6 5 H:1,101 [-200]\n",
        ),
        asked(
            &["poly", "-D"],
            "5 1 1 1 1 1\n",
            "5 1 1 1 1 1 M:6 5 N:126 5 H:101,1 [200]\n",
        ),
        asked(
            &["poly", "-Di"],
            "5 1 1 1 1 1\n",
            "Faces: 5 10 10 5\nIncidence 5 5\n01111\n10111\n11011\n11101\n11110\n",
        ),
    ];
    assert!(rt; are_answered(&rt, &cases)?);
    Ok(())
}

#[test]
fn general_lines_have_their_numbers(rt: HostRuntime) -> Result<(), Fail> {
    let cases = [
        general("2 1 1\n", "2 1 1 M:3 2 N:3 2\n"),
        general("3 1 1 1\n", "3 1 1 1 M:10 3 N:4 3\n"),
        general("4 1 1 1 1\n", "4 1 1 1 1 M:35 4 N:5 4 Pic:1 Cor:0\n"),
        general(HEXAGONS, "M:7 6 N:7 6\nM:7 6 N:7 6\n"),
        general(TRIANGLE, "M:11 3 F:3\n"),
        general("5 1 1 3\n", "5 1 1 3 M:9 4 F:4\n"),
        general("2 1 1 0 0 2 0 0 1 1\n", "2 1 1 0 0 2 0 0 1 1 M:9 4 N:5 4\n"),
        general("2 4\n-1 2 -1 -1\n-1 -1 2 -1\n", "M:10 3 N:4 3\n"),
        general(SMALL_TRIANGLE, "M:4 3 N:10 3\n"),
        asked(&["poly", "-D"], SMALL_TRIANGLE, "M:10 3 N:4 3\n"),
        asked(&["poly", "-D"], TRIANGLE, "M:11 3 F:3\n"),
    ];
    assert!(rt; are_answered(&rt, &cases)?);
    Ok(())
}

#[test]
fn large_threefolds_and_fourfolds_are_told(rt: HostRuntime) -> Result<(), Fail> {
    let cases = [
        general(
            "84 1 1 12 28 42\n",
            "84 1 1 12 28 42 M:680 5 N:26 5 H:11,491 [-960]\n",
        ),
        general(
            "3486 41 42 498 1162 1743\n",
            "3486 41 42 498 1162 1743 M:26 5 N:680 5 H:491,11 [960]\n",
        ),
        general(
            "3 1 1 1 0 0 0 3 0 0 0 1 1 1\n",
            "3 1 1 1 0 0 0 3 0 0 0 1 1 1 M:100 9 N:7 6 H:2,83 [-162]\n",
        ),
        general(
            "6 1 1 1 1 1 1\n",
            "6 1 1 1 1 1 1 M:462 6 N:7 6 H:1,0,426 [2610]\n",
        ),
    ];
    assert!(rt; are_answered(&rt, &cases)?);
    Ok(())
}

#[test]
fn all_blocks_are_printed_in_order(rt: HostRuntime) -> Result<(), Fail> {
    let line =
        "3 1 1 1 M:10 3 N:4 3\n2 10 Points\n-1 -1 -1 -1 0 0 0 1 1 2\n-1 0 1 2 -1 0 1 -1 0 -1\n\
2 3 Vertices\n-1 -1 2\n-1 2 -1\n3 2 Vertices of P-dual\n-1 -1\n0 1\n1 0\nPairing 3 3\n3 0 0\n0 3 0\n0 0 3\n\
2 4 Points of P-dual\n-1 0 0 1\n-1 0 1 0\nFaces: 3 3\nIncidence 3 3\n011\n101\n110\n";
    let dual =
        "3 1 1 1 M:4 3 N:10 3\n2 4 Points\n-1 0 0 1\n-1 0 1 0\n2 3 Vertices\n-1 0 1\n-1 1 0\n\
3 2 Vertices of P-dual\n-1 -1\n-1 2\n2 -1\nPairing 3 3\n3 0 0\n0 3 0\n0 0 3\n\
2 10 Points of P-dual\n-1 -1 -1 -1 0 0 0 1 1 2\n-1 0 1 2 -1 0 1 -1 0 -1\nFaces: 3 3\nIncidence 3 3\n011\n101\n110\n";
    let other =
        "M:11 3 F:3\n2 11 Points\n-1 -1 -1 -1 0 0 0 1 1 2 3\n-1 0 1 2 -1 0 1 -1 0 -1 -1\n2 3 Vertices\n-1 -1 3\n-1 2 -1\n\
Equations 3 2\n-3 -4 5\n0 1 1\n1 0 1\nPairing 3 3\n12 0 0\n0 3 0\n0 0 4\n";
    let cases = [
        asked(&["poly", "-ai"], "3 1 1 1\n", line),
        asked(&["poly", "-gd", "-pvemi"], "3 1 1 1\n", line),
        asked(&["poly", "-aiD"], "3 1 1 1\n", dual),
        asked(&["poly", "-a"], TRIANGLE, other),
        asked(&["poly", "-d"], TRIANGLE, ""),
        asked(
            &["poly", "-d"],
            "3 1 1 1\n",
            "2 4 Points of P-dual\n-1 0 0 1\n-1 0 1 0\n",
        ),
        asked(
            &["poly", "-Dv"],
            SMALL_TRIANGLE,
            "2 3 Vertices\n-1 -1 2\n-1 2 -1\n",
        ),
    ];
    assert!(rt; are_answered(&rt, &cases)?);
    Ok(())
}

#[test]
fn only_reflexive_items_are_printed(rt: HostRuntime) -> Result<(), Fail> {
    let both = "3 2\n-1 -1\n3 -1\n-1 2\n3 1 1 1\n";
    let cases = [
        asked(&["poly", "-r"], TRIANGLE, ""),
        asked(&["poly", "-r"], both, "3 1 1 1 M:10 3 N:4 3\n"),
        asked(&["poly", "-rn"], both, "3 1 1 1 M:10 3 F:3\n"),
        asked(
            &["poly", "-riD"],
            both,
            "Faces: 3 3\nIncidence 3 3\n011\n101\n110\n",
        ),
        refused(
            &["poly", "-r"],
            "2 3\n0 1 2\n0 1 2\n",
            "palp: item 1: flat: -1 1 0\n",
        ),
    ];
    assert!(rt; are_answered(&rt, &cases)?);
    Ok(())
}

#[test]
fn large_duals_are_refused_where_they_are_asked(rt: HostRuntime) -> Result<(), Fail> {
    let wide = "2 3\n1 0 -1\n-600000000 1 599999999\n";
    let many = "6 5\n1 0 0 0 0\n0 1 0 0 0\n0 0 1 0 0\n0 0 0 1 0\n0 0 0 0 1\n-1 -1 -18 -42 -63\n";
    let cases = [
        refused(
            &["poly"],
            wide,
            "palp: item 1: limit DualSize: 1200000001\n",
        ),
        refused(
            &["poly", "-Dv"],
            wide,
            "palp: item 1: limit DualSize: 1200000001\n",
        ),
        refused(&["poly"], many, "palp: item 1: limit DualPoints: 16385\n"),
        refused(
            &["poly", "-rd"],
            many,
            "palp: item 1: limit DualPoints: 16385\n",
        ),
        asked(
            &["poly", "-rv"],
            wide,
            "2 3 Vertices\n-1 0 1\n599999999 1 -600000000\n",
        ),
    ];
    assert!(rt; are_answered(&rt, &cases)?);
    Ok(())
}

#[test]
fn numbers_exchange_with_the_sides(rt: HostRuntime) -> Result<(), Fail> {
    let surfaces = "12 2 3 3 4\n";
    let fourfolds = "12 1 1 1 3 3 3\n";
    let cases = [
        general(surfaces, "12 2 3 3 4 M:15 4 N:9 4 Pic:12 Cor:8\n"),
        asked(
            &["poly", "-D"],
            surfaces,
            "12 2 3 3 4 M:9 4 N:15 4 Pic:16 Cor:8\n",
        ),
        general(fourfolds, "12 1 1 1 3 3 3 M:539 6 N:8 6 H:2,3,491 [2988]\n"),
        asked(
            &["poly", "-D"],
            fourfolds,
            "12 1 1 1 3 3 3 M:8 6 N:539 6 H:491,3,2 [2988]\n",
        ),
    ];
    assert!(rt; are_answered(&rt, &cases)?);
    Ok(())
}

#[test]
fn texts_end_as_without_duals(rt: HostRuntime) -> Result<(), Fail> {
    let cases = [
        general("", ""),
        general(" \n\n", ""),
        general("1 2\n-8192 8191\n", "M:16384 2 F:2\n"),
        refused(
            &["poly"],
            "1 2\n-8192 8192\n",
            "palp: item 1: limit Points: 16385\n",
        ),
        Case {
            note: "palp: line 2 column 1: MatrixShort\n",
            status: 3,
            ..general("3 1 1 1\n2 3\n0 1 0\n", "3 1 1 1 M:10 3 N:4 3\n")
        },
        Case {
            note: "palp: line 1 column 13: Quotient\n",
            status: 3,
            ..general("5 1 1 1 1 1 /Z5: 0 1 2 3 4\n", "")
        },
    ];
    assert!(rt; are_answered(&rt, &cases)?);
    Ok(())
}

#[test]
fn nothing_is_given_where_nothing_is_printed(rt: HostRuntime) -> Result<(), Fail> {
    let cases = [
        asked(&["poly", "-d"], TRIANGLE, ""),
        asked(&["poly", "-dD"], TRIANGLE, ""),
        asked(&["poly", "-r"], TRIANGLE, ""),
    ];
    for case in &cases {
        assert!(rt; is_answered(&rt, case, 4096, failing_give(1))?);
    }
    let fault = Case {
        note: "palp: write fault\n",
        status: 7,
        ..general(
            "5 1 1 1 1 1\n3 2\n-1 -1\n3 -1\n-1 2\n",
            "5 1 1 1 1 1 M:126 5 N:6 5 H:1,101 [-200]\n",
        )
    };
    assert!(rt; is_answered(&rt, &fault, 4096, failing_give(2))?);
    Ok(())
}
