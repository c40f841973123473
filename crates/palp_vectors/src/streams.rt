//! Sources and sinks that fail.

use crate::runs::{Case, NOTHING, done, failing_give, failing_note, failing_take, is_answered};
use std::test::Fail;

/// A source that fails behind some bytes, and what is reported of these.
fn failed(text: &'static str, report: &'static str) -> Case {
    Case {
        note: "palp: read fault\n",
        status: 6,
        ..done(text, report)
    }
}

#[test]
fn each_take_may_fail(rt: HostRuntime) -> Result<(), Fail> {
    let text = "3 1 1 1\n";
    let line = "3 1 1 1 M:10 3 F:3\n";
    for (chunk, takes) in [(1_usize, 8_u64), (2, 4), (7, 2), (4096, 1)] {
        for take in 1..takes + 1 {
            assert!(rt; is_answered(&rt, &failed(text, ""), chunk, failing_take(take))?);
        }
        assert!(rt; is_answered(&rt, &failed(text, line), chunk, failing_take(takes + 1))?);
        assert!(rt; is_answered(&rt, &done(text, line), chunk, failing_take(takes + 2))?);
    }
    Ok(())
}

#[test]
fn a_line_is_reported_before_the_next_take(rt: HostRuntime) -> Result<(), Fail> {
    let text = "3 1 1 1\n3 1 1 1\n";
    let fault = failed(text, "3 1 1 1 M:10 3 F:3\n");
    assert!(rt; is_answered(&rt, &fault, 8, failing_take(2))?);
    assert!(rt; is_answered(&rt, &failed(text, ""), 7, failing_take(2))?);
    Ok(())
}

/// A weight line, blank lines, a matrix and a weight line without a line end.
const MIXED: &str = "3 1 1 1\n\n \n3 2\n-1 -1\n3 -1\n\n-1 2\n3 1 1 1";

#[test]
fn items_with_their_line_ends_are_reported(rt: HostRuntime) -> Result<(), Fail> {
    let reports = [
        "",
        "3 1 1 1 M:10 3 F:3\n",
        "3 1 1 1 M:10 3 F:3\nM:11 3 F:3\n",
    ];
    for chunk in [1_usize, 2, 7] {
        let mut taken = 0_usize;
        for take in 1_u64..41 {
            let items = usize::from(taken >= 8) + usize::from(taken >= 32);
            assert!(rt;
                is_answered(
                    &rt,
                    &failed(MIXED, reports[items]),
                    chunk,
                    failing_take(take)
                )?
            );
            if taken == 39 {
                break;
            }
            taken = taken.saturating_add(chunk).min(39);
        }
    }
    Ok(())
}

#[test]
fn reports_are_those_of_the_text(rt: HostRuntime) -> Result<(), Fail> {
    let whole = "3 1 1 1 M:10 3 F:3\nM:11 3 F:3\n3 1 1 1 M:10 3 F:3\n";
    let faulty = Case {
        note: "palp: line 4 column 4: BadNumber\n",
        status: 3,
        ..done("3 1 1 1\n\n3 2\n-1 x\n", "3 1 1 1 M:10 3 F:3\n")
    };
    let flat = Case {
        note: "palp: item 2: flat: -1 1 0\n",
        status: 4,
        ..done("3 1 1 1\n3 2\n0 0\n1 1\n2 2\nx\n", "3 1 1 1 M:10 3 F:3\n")
    };
    for chunk in [1_usize, 2, 7] {
        for case in [done(MIXED, whole), faulty, flat] {
            assert!(rt; is_answered(&rt, &case, chunk, NOTHING)?);
        }
    }
    Ok(())
}

#[test]
fn each_give_may_fail(rt: HostRuntime) -> Result<(), Fail> {
    let lines = [
        "",
        "3 1 1 1 M:10 3 F:3\n",
        "3 1 1 1 M:10 3 F:3\nM:11 3 F:3\n",
        "3 1 1 1 M:10 3 F:3\nM:11 3 F:3\nM:8 2 F:2\n",
    ];
    let text = "3 1 1 1\n3 2\n-1 -1\n3 -1\n-1 2\n1 3\n5 -2 1\n";
    for (give, report) in (1_u64..4).zip(lines) {
        let fault = Case {
            note: "palp: write fault\n",
            status: 7,
            ..done(text, report)
        };
        assert!(rt; is_answered(&rt, &fault, 7, failing_give(give))?);
    }
    let whole = done(text, lines[3]);
    assert!(rt; is_answered(&rt, &whole, 7, failing_give(4))?);
    assert!(rt; is_answered(&rt, &whole, 7, failing_note(1))?);
    Ok(())
}

#[test]
fn nothing_is_given_for_an_empty_report(rt: HostRuntime) -> Result<(), Fail> {
    for text in ["", "\n \n"] {
        assert!(rt; is_answered(&rt, &done(text, ""), 7, failing_give(1))?);
    }
    let flat = Case {
        note: "palp: item 1: flat: -1 1 0\n",
        status: 4,
        ..done("3 2\n0 0\n1 1\n2 2\n", "")
    };
    assert!(rt; is_answered(&rt, &flat, 7, failing_give(1))?);
    Ok(())
}

#[test]
fn a_note_is_one_give(rt: HostRuntime) -> Result<(), Fail> {
    let flat = Case {
        note: "palp: item 1: flat: -1 1 0\n",
        status: 4,
        ..done("3 2\n0 0\n1 1\n2 2\n", "")
    };
    assert!(rt; is_answered(&rt, &flat, 7, failing_note(2))?);
    let unnoted = Case { note: "", ..flat };
    assert!(rt; is_answered(&rt, &unnoted, 7, failing_note(1))?);
    Ok(())
}
