//! Nef partitions with their stringy Hodge numbers.

use crate::runs::{Case, NOTHING, TRIANGLE, are_answered, asked, failing_give, is_answered};
use std::test::Fail;

const QUARTIC: &str = "4 1 1 1 1\n";

const SIMPLEX: &str =
    "7 6\n1 0 0 0 0 0\n0 1 0 0 0 0\n0 0 1 0 0 0\n0 0 0 1 0 0\n0 0 0 0 1 0\n0 0 0 0 0 1\n-1 -1 -1 -1 -1 -1\n";

const HEXAGON: &str = "2 6\n1 1 0 -1 -1 0\n0 1 1 0 -1 -1\n";

/// A refusal of the first item, behind what is reported of it.
fn refused(
    words: &'static [&'static str],
    text: &'static str,
    report: &'static str,
    note: &'static str,
) -> Case {
    Case {
        note,
        status: 4,
        ..asked(words, text, report)
    }
}

#[test]
fn partitions_of_a_quartic_have_their_numbers(rt: HostRuntime) -> Result<(), Fail> {
    let cases = [
        asked(
            &["nef"],
            QUARTIC,
            "4 1 1 1 1 M:35 4 N:5 4 codim=2\n\
P:1 V:0 0 0 1 H:1 [0]\nP:2 V:0 0 1 0 H:1 [0]\nP:3 V:0 0 1 1 H:1 [0]\nP:4 V:0 1 0 0 H:1 [0]\n\
P:5 V:0 1 0 1 H:1 [0]\nP:6 V:0 1 1 0 H:1 [0]\nP:7 V:0 1 1 1 H:1 [0]\n#nef:7\n",
        ),
        asked(
            &["nef", "-H"],
            QUARTIC,
            "4 1 1 1 1 M:35 4 N:5 4 codim=2\n\
P:1 V:0 0 0 1 H:1 [0]\nh0: 1 1\nh1: 1 1\nP:2 V:0 0 1 0 H:1 [0]\nh0: 1 1\nh1: 1 1\n\
P:3 V:0 0 1 1 H:1 [0]\nh0: 1 1\nh1: 1 1\nP:4 V:0 1 0 0 H:1 [0]\nh0: 1 1\nh1: 1 1\n\
P:5 V:0 1 0 1 H:1 [0]\nh0: 1 1\nh1: 1 1\nP:6 V:0 1 1 0 H:1 [0]\nh0: 1 1\nh1: 1 1\n\
P:7 V:0 1 1 1 H:1 [0]\nh0: 1 1\nh1: 1 1\n#nef:7\n",
        ),
        asked(
            &["nef", "-c1"],
            QUARTIC,
            "4 1 1 1 1 M:35 4 N:5 4 codim=1\nP:1 V:0 0 0 0 H:20 [24]\n#nef:1\n",
        ),
    ];
    assert!(rt; are_answered(&rt, &cases)?);
    Ok(())
}

#[test]
fn the_quintic_has_all_its_numbers(rt: HostRuntime) -> Result<(), Fail> {
    let cases = [asked(
        &["nef", "-c1", "-H"],
        "5 1 1 1 1 1\n",
        "5 1 1 1 1 1 M:126 5 N:6 5 codim=1\n\
P:1 V:0 0 0 0 0 H:1,101 [-200]\nh0: 1 0 0 1\nh1: 0 1 101 0\nh2: 0 101 1 0\nh3: 1 0 0 1\n#nef:1\n",
    )];
    assert!(rt; are_answered(&rt, &cases)?);
    Ok(())
}

#[test]
fn large_dilates_and_cones_are_refused(rt: HostRuntime) -> Result<(), Fail> {
    let cases = [
        refused(
            &["nef", "-c1"],
            "7 1 1 1 1 1 1 1\n",
            "",
            "palp: item 1: limit ScanM: 4194305\n",
        ),
        refused(
            &["nef", "-c1"],
            SIMPLEX,
            "",
            "palp: item 1: limit ScanN: 4194305\n",
        ),
        refused(
            &["nef", "-c1"],
            "24 1 1 1 1 8 12\n",
            "24 1 1 1 1 8 12 M:4551 6 N:11 6 codim=1\n",
            "palp: item 1: limit ConeM: 2097153\n",
        ),
    ];
    assert!(rt; are_answered(&rt, &cases)?);
    Ok(())
}

#[test]
fn partitions_of_a_sextic_have_their_numbers(rt: HostRuntime) -> Result<(), Fail> {
    let sextic = asked(
        &["nef"],
        "6 1 1 1 1 1 1\n",
        "6 1 1 1 1 1 1 M:462 6 N:7 6 codim=2\n\
P:1 V:0 0 0 0 0 1 H:1,101 [-200]\nP:2 V:0 0 0 0 1 0 H:1,101 [-200]\nP:3 V:0 0 0 0 1 1 H:1,89 [-176]\n\
P:4 V:0 0 0 1 0 0 H:1,101 [-200]\nP:5 V:0 0 0 1 0 1 H:1,89 [-176]\nP:6 V:0 0 0 1 1 0 H:1,89 [-176]\n\
P:7 V:0 0 0 1 1 1 H:1,73 [-144]\nP:8 V:0 0 1 0 0 0 H:1,101 [-200]\nP:9 V:0 0 1 0 0 1 H:1,89 [-176]\n\
P:10 V:0 0 1 0 1 0 H:1,89 [-176]\nP:11 V:0 0 1 0 1 1 H:1,73 [-144]\nP:12 V:0 0 1 1 0 0 H:1,89 [-176]\n\
P:13 V:0 0 1 1 0 1 H:1,73 [-144]\nP:14 V:0 0 1 1 1 0 H:1,73 [-144]\nP:15 V:0 0 1 1 1 1 H:1,89 [-176]\n\
P:16 V:0 1 0 0 0 0 H:1,101 [-200]\nP:17 V:0 1 0 0 0 1 H:1,89 [-176]\nP:18 V:0 1 0 0 1 0 H:1,89 [-176]\n\
P:19 V:0 1 0 0 1 1 H:1,73 [-144]\nP:20 V:0 1 0 1 0 0 H:1,89 [-176]\nP:21 V:0 1 0 1 0 1 H:1,73 [-144]\n\
P:22 V:0 1 0 1 1 0 H:1,73 [-144]\nP:23 V:0 1 0 1 1 1 H:1,89 [-176]\nP:24 V:0 1 1 0 0 0 H:1,89 [-176]\n\
P:25 V:0 1 1 0 0 1 H:1,73 [-144]\nP:26 V:0 1 1 0 1 0 H:1,73 [-144]\nP:27 V:0 1 1 0 1 1 H:1,89 [-176]\n\
P:28 V:0 1 1 1 0 0 H:1,73 [-144]\nP:29 V:0 1 1 1 0 1 H:1,89 [-176]\nP:30 V:0 1 1 1 1 0 H:1,89 [-176]\n\
P:31 V:0 1 1 1 1 1 H:1,101 [-200]\n\
#nef:31\n",
    );
    assert!(rt; is_answered(&rt, &sextic, 7, NOTHING)?);
    Ok(())
}

#[test]
fn items_without_numbers_are_told(rt: HostRuntime) -> Result<(), Fail> {
    let cases = [
        asked(&["nef"], TRIANGLE, "M:11 3 F:3\n"),
        refused(&["nef"], HEXAGON, "", "palp: item 1: limit Codim: 2\n"),
        refused(
            &["nef"],
            "7 1 1 1 1 1 1 1\n",
            "",
            "palp: item 1: limit Rank: 8\n",
        ),
    ];
    assert!(rt; are_answered(&rt, &cases)?);
    Ok(())
}

#[test]
fn each_piece_may_fail(rt: HostRuntime) -> Result<(), Fail> {
    let words: &[&str] = &["nef", "-H", "-c1"];
    let reports = [
        "",
        "4 1 1 1 1 M:35 4 N:5 4 codim=1\n",
        "4 1 1 1 1 M:35 4 N:5 4 codim=1\nP:1 V:0 0 0 0 H:20 [24]\nh0: 1 0 1\nh1: 0 20 0\nh2: 1 0 1\n",
        "4 1 1 1 1 M:35 4 N:5 4 codim=1\nP:1 V:0 0 0 0 H:20 [24]\nh0: 1 0 1\nh1: 0 20 0\nh2: 1 0 1\n#nef:1\n",
    ];
    for (give, report) in (1_u64..4).zip(reports) {
        let fault = Case {
            note: "palp: write fault\n",
            status: 7,
            ..asked(words, QUARTIC, report)
        };
        assert!(rt; is_answered(&rt, &fault, 7, failing_give(give))?);
    }
    let whole = asked(words, QUARTIC, reports[3]);
    assert!(rt; is_answered(&rt, &whole, 7, failing_give(4))?);
    Ok(())
}
