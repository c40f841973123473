//! Words of the command line.

use crate::runs::{Case, TRIANGLE, are_answered, done};
use std::test::Fail;

fn wrong_words(words: &'static [&'static str], note: &'static str) -> Case {
    Case {
        words,
        text: TRIANGLE,
        report: "",
        note,
        status: 2,
    }
}

#[test]
fn wrong_words_are_told(rt: HostRuntime) -> Result<(), Fail> {
    let cases = [
        wrong_words(&[], "palp: word 1: Missing\n"),
        wrong_words(&["poly", "-x"], "palp: word 2: Flag\n"),
        wrong_words(&["nef", "-c4"], "palp: word 2: Range\n"),
        wrong_words(&["nef", "-pH"], "palp: word 2: Conflict\n"),
        wrong_words(&["cws", "-w3", "5"], "palp: word 4: Missing\n"),
        wrong_words(&["sweep", "2", "3", "6", "7"], "palp: word 5: Extra\n"),
        wrong_words(&["class"], "palp: word 1: Command\n"),
        wrong_words(&["nef", "-cx"], "palp: word 2: Number\n"),
        wrong_words(&["poly", "-nD"], "palp: word 2: Conflict\n"),
        Case {
            words: &["poly", "-ng", "-n"],
            ..done(TRIANGLE, "M:11 3 F:3\n")
        },
    ];
    assert!(rt; are_answered(&rt, &cases)?);
    Ok(())
}
