//! The blocks of items.

use crate::runs::{Case, TRIANGLE, are_answered, asked};
use std::test::Fail;

const SQUARE: &str = "4 2\n1 1\n1 -1\n-1 1\n-1 -1\n";

#[test]
fn blocks_are_printed_in_order(rt: HostRuntime) -> Result<(), Fail> {
    let all = "3 1 1 1 M:10 3 F:3\n2 10 Points\n-1 -1 -1 -1 0 0 0 1 1 2\n-1 0 1 2 -1 0 1 -1 0 -1\n\
2 3 Vertices\n-1 -1 2\n-1 2 -1\n3 2 Vertices of P-dual\n-1 -1\n0 1\n1 0\nPairing 3 3\n3 0 0\n0 3 0\n0 0 3\n";
    let cases = [
        asked(&["poly", "-gnpvem"], "3 1 1 1\n", all),
        asked(&["poly", "-m", "-evp", "-ng"], "3 1 1 1\n", all),
    ];
    assert!(rt; are_answered(&rt, &cases)?);
    Ok(())
}

#[test]
fn each_block_is_printed_alone(rt: HostRuntime) -> Result<(), Fail> {
    let points = "2 11 Points\n-1 -1 -1 -1 0 0 0 1 1 2 3\n-1 0 1 2 -1 0 1 -1 0 -1 -1\n";
    let cases = [
        asked(&["poly", "-p"], TRIANGLE, points),
        asked(&["poly", "-np"], TRIANGLE, points),
        asked(
            &["poly", "-v"],
            TRIANGLE,
            "2 3 Vertices\n-1 -1 3\n-1 2 -1\n",
        ),
        asked(
            &["poly", "-v"],
            "3 1 1 1",
            "2 3 Vertices\n-1 -1 2\n-1 2 -1\n",
        ),
        asked(
            &["poly", "-e"],
            TRIANGLE,
            "Equations 3 2\n-3 -4 5\n0 1 1\n1 0 1\n",
        ),
        asked(
            &["poly", "-e"],
            SQUARE,
            "4 2 Vertices of P-dual\n-1 0\n0 -1\n0 1\n1 0\n",
        ),
        asked(
            &["poly", "-m"],
            SQUARE,
            "Pairing 4 4\n2 2 0 0\n2 0 2 0\n0 2 0 2\n0 0 2 2\n",
        ),
        asked(
            &["poly", "-e"],
            "2 4\n2 0 -2 0\n0 2 0 -2\n",
            "Equations 4 2\n-1 -1 2\n-1 1 2\n1 -1 2\n1 1 2\n",
        ),
    ];
    assert!(rt; are_answered(&rt, &cases)?);
    Ok(())
}

#[test]
fn blocks_are_printed_in_each_dimension(rt: HostRuntime) -> Result<(), Fail> {
    let simplex =
        "7 6\n-1 -1 -1 -1 -1 -1\n1 0 0 0 0 0\n0 1 0 0 0 0\n0 0 1 0 0 0\n0 0 0 1 0 0\n0 0 0 0 1 0\n0 0 0 0 0 1\n";
    let corners =
        "6 7 Vertices\n-1 0 0 0 0 0 1\n-1 0 0 0 0 1 0\n-1 0 0 0 1 0 0\n-1 0 0 1 0 0 0\n-1 0 1 0 0 0 0\n-1 1 0 0 0 0 0\n";
    let cases = [
        asked(
            &["poly", "-pv"],
            "1 3\n5 -2 1\n",
            "1 8 Points\n-2 -1 0 1 2 3 4 5\n1 2 Vertices\n-2 5\n",
        ),
        asked(
            &["poly", "-em"],
            "1 3\n5 -2 1\n",
            "Equations 2 1\n-1 5\n1 2\nPairing 2 2\n7 0\n0 7\n",
        ),
        asked(
            &["poly", "-v"],
            "3 6\n1 0 0 -1 0 0\n0 1 0 0 -1 0\n0 0 1 0 0 -1\n",
            "3 6 Vertices\n-1 0 0 0 0 1\n0 -1 0 0 1 0\n0 0 -1 1 0 0\n",
        ),
        asked(&["poly", "-v"], simplex, corners),
    ];
    assert!(rt; are_answered(&rt, &cases)?);
    Ok(())
}

#[test]
fn refused_items_have_no_block(rt: HostRuntime) -> Result<(), Fail> {
    let cases = [
        Case {
            note: "palp: item 2: flat: -1 1 0\n",
            status: 4,
            ..asked(
                &["poly", "-v"],
                "3 1 1 1\n2 3\n0 1 2\n0 1 2\n",
                "2 3 Vertices\n-1 -1 2\n-1 2 -1\n",
            )
        },
        Case {
            note: "palp: item 1: limit Points: 16385\n",
            status: 4,
            ..asked(&["poly", "-p"], "1 2\n-8192 8192\n", "")
        },
        Case {
            note: "palp: item 1: limit Points: 16385\n",
            status: 4,
            ..asked(&["poly", "-v"], "1 2\n-8192 8192\n", "")
        },
    ];
    assert!(rt; are_answered(&rt, &cases)?);
    Ok(())
}
