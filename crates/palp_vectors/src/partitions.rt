//! Nef partitions, listed without their Hodge numbers.

use crate::runs::{Case, TRIANGLE, are_answered, asked};
use std::test::Fail;

const QUARTIC: &str = "4 1 1 1 1\n";

const HEXAGON: &str = "2 6\n1 1 0 -1 -1 0\n0 1 1 0 -1 -1\n";

const PRISM: &str = "8 3\n-1 -1 -1\n-1 -1 1\n0 -1 -1\n0 -1 1\n-1 1 -1\n-1 1 1\n2 1 -1\n2 1 1\n";

const SIMPLEX: &str =
    "6 5\n1 0 0 0 0\n0 1 0 0 0\n0 0 1 0 0\n0 0 0 1 0\n0 0 0 0 1\n-1 -1 -1 -1 -1\n";

const TWO_HEXAGONS: &str =
    "12 4\n1 0 0 0\n1 1 0 0\n0 1 0 0\n-1 0 0 0\n-1 -1 0 0\n0 -1 0 0\n0 0 1 0\n0 0 1 1\n0 0 0 1\n0 0 -1 0\n0 0 -1 -1\n0 0 0 -1\n";

/// A refusal of the first item.
fn refused(words: &'static [&'static str], text: &'static str, note: &'static str) -> Case {
    Case {
        note,
        status: 4,
        ..asked(words, text, "")
    }
}

#[test]
fn partitions_of_a_quartic_and_a_prism_are_listed(rt: HostRuntime) -> Result<(), Fail> {
    let cases = [
        asked(
            &["nef", "-p"],
            QUARTIC,
            "4 1 1 1 1 M:35 4 N:5 4 codim=2\n\
P:1 V:0 0 0 1\nP:2 V:0 0 1 0\nP:3 V:0 0 1 1\nP:4 V:0 1 0 0\nP:5 V:0 1 0 1\nP:6 V:0 1 1 0\nP:7 V:0 1 1 1\n#nef:7\n",
        ),
        asked(
            &["nef", "-p"],
            PRISM,
            "M:27 8 N:7 6 codim=2\n\
P:1 V:0 0 0 0 0 1\nP:2 V:0 0 0 0 1 1\nP:3 V:0 0 0 1 0 0\nP:4 V:0 0 0 1 0 1\nP:5 V:0 0 0 1 1 1\nP:6 V:0 0 1 0 0 0\n\
P:7 V:0 0 1 0 0 1\nP:8 V:0 0 1 0 1 1\nP:9 V:0 0 1 1 0 0\nP:10 V:0 0 1 1 0 1\nP:11 V:0 0 1 1 1 1\nP:12 V:0 1 0 0 0 0\n\
P:13 V:0 1 0 0 0 1\nP:14 V:0 1 0 0 1 1\nP:15 V:0 1 0 1 0 0\nP:16 V:0 1 0 1 0 1\nP:17 V:0 1 0 1 1 1\nP:18 V:0 1 1 0 0 0\n\
P:19 V:0 1 1 0 0 1\nP:20 V:0 1 1 0 1 1\nP:21 V:0 1 1 1 0 0\nP:22 V:0 1 1 1 0 1\nP:23 V:0 1 1 1 1 1\n\
#nef:23\n",
        ),
        asked(
            &["nef", "-p", "-c1"],
            QUARTIC,
            "4 1 1 1 1 M:35 4 N:5 4 codim=1\nP:1 V:0 0 0 0\n#nef:1\n",
        ),
        asked(
            &["nef", "-p"],
            "6 1 1 1 1 1 1\n",
            "6 1 1 1 1 1 1 M:462 6 N:7 6 codim=2\n\
P:1 V:0 0 0 0 0 1\nP:2 V:0 0 0 0 1 0\nP:3 V:0 0 0 0 1 1\nP:4 V:0 0 0 1 0 0\nP:5 V:0 0 0 1 0 1\n\
P:6 V:0 0 0 1 1 0\nP:7 V:0 0 0 1 1 1\nP:8 V:0 0 1 0 0 0\nP:9 V:0 0 1 0 0 1\nP:10 V:0 0 1 0 1 0\n\
P:11 V:0 0 1 0 1 1\nP:12 V:0 0 1 1 0 0\nP:13 V:0 0 1 1 0 1\nP:14 V:0 0 1 1 1 0\nP:15 V:0 0 1 1 1 1\n\
P:16 V:0 1 0 0 0 0\nP:17 V:0 1 0 0 0 1\nP:18 V:0 1 0 0 1 0\nP:19 V:0 1 0 0 1 1\nP:20 V:0 1 0 1 0 0\n\
P:21 V:0 1 0 1 0 1\nP:22 V:0 1 0 1 1 0\nP:23 V:0 1 0 1 1 1\nP:24 V:0 1 1 0 0 0\nP:25 V:0 1 1 0 0 1\n\
P:26 V:0 1 1 0 1 0\nP:27 V:0 1 1 0 1 1\nP:28 V:0 1 1 1 0 0\nP:29 V:0 1 1 1 0 1\nP:30 V:0 1 1 1 1 0\n\
P:31 V:0 1 1 1 1 1\n\
#nef:31\n",
        ),
    ];
    assert!(rt; are_answered(&rt, &cases)?);
    Ok(())
}

#[test]
fn polytopes_without_partitions_are_told(rt: HostRuntime) -> Result<(), Fail> {
    let cases = [
        asked(&["nef", "-p"], TRIANGLE, "M:11 3 F:3\n"),
        asked(&["nef", "-p"], SIMPLEX, "M:7 6 N:462 6 codim=2\n#nef:0\n"),
        asked(
            &["nef", "-p"],
            TWO_HEXAGONS,
            "M:13 12 N:49 36 codim=2\n#nef:0\n",
        ),
        asked(&["nef", "-p"], "", ""),
    ];
    assert!(rt; are_answered(&rt, &cases)?);
    Ok(())
}

#[test]
fn too_many_parts_are_refused(rt: HostRuntime) -> Result<(), Fail> {
    let cases = [
        refused(&["nef", "-p"], HEXAGON, "palp: item 1: limit Codim: 2\n"),
        refused(
            &["nef", "-p"],
            "7 1 1 1 1 1 1 1\n",
            "palp: item 1: limit Rank: 8\n",
        ),
        refused(
            &["nef", "-c3", "-p"],
            SIMPLEX,
            "palp: item 1: limit Rank: 8\n",
        ),
        Case {
            note: "palp: item 2: limit Codim: 2\n",
            status: 4,
            ..asked(
                &["nef", "-p"],
                "3 2\n-1 -1\n3 -1\n-1 2\n3 1 1 1\n",
                "M:11 3 F:3\n",
            )
        },
    ];
    assert!(rt; are_answered(&rt, &cases)?);
    Ok(())
}
