//! Runs over sources and sinks in memory.

use palp_engine::run;
use palp_io::{MemSink, MemSource};
use std::alloc::Global;
use std::process::Abort;
use std::test::Fail;

/// What a run is given, and what it must answer.
#[derive(Clone, Copy)]
pub(crate) struct Case {
    /// The words of the command line.
    pub words: &'static [&'static str],
    /// The text that the source gives.
    pub text: &'static str,
    /// All that the run gives to its output.
    pub report: &'static str,
    /// All that it gives to its notes.
    pub note: &'static str,
    /// The status that its outcome has.
    pub status: u8,
}

/// Which calls of the streams fail, counted from 1; 0 is none.
#[derive(Clone, Copy)]
pub(crate) struct Failing {
    /// The take of the source.
    pub take: u64,
    /// The give to the output.
    pub give: u64,
    /// The give to the notes.
    pub note: u64,
}

/// No call fails.
pub(crate) const NOTHING: Failing = Failing {
    take: 0,
    give: 0,
    note: 0,
};

/// This take of the source fails.
pub(crate) fn failing_take(take: u64) -> Failing {
    Failing {
        take,
        give: 0,
        note: 0,
    }
}

/// This give to the output fails.
pub(crate) fn failing_give(give: u64) -> Failing {
    Failing {
        take: 0,
        give,
        note: 0,
    }
}

/// This give to the notes fails.
pub(crate) fn failing_note(note: u64) -> Failing {
    Failing {
        take: 0,
        give: 0,
        note,
    }
}

/// The words that ask one line of every item.
pub(crate) const PLAIN: &[&str] = &["poly", "-n"];

/// The matrix of a triangle with 11 lattice points.
pub(crate) const TRIANGLE: &str = "3 2\n-1 -1\n3 -1\n-1 2\n";

/// The words as the command line hands them over.
pub(crate) fn words_of(alloc: Global, words: &[&str]) -> Result<Vec<String>, Fail> {
    let mut all = Vec::new(alloc);
    for word in words {
        all.push(String::from_str(alloc, word)?)?;
    }
    Ok(all)
}

/// What a run answered.
#[derive(Drop)]
pub(crate) struct Answer {
    /// The status of the outcome.
    pub status: u8,
    /// All that was given to the output.
    pub report: Vec<u8>,
    /// All that was given to the notes.
    pub note: Vec<u8>,
}

/// Runs the words, fewer than 100, on a text, of which each take gives at most `chunk` bytes, and at least one. The output has room for
/// 30,000 bytes, and the notes for 1,000.
pub(crate) fn answer_to(
    rt: &(impl Abort + AllocGlobal),
    words: &[&str],
    text: &[u8],
    chunk: usize,
    failing: Failing,
) -> Result<Answer, Fail> {
    let alloc = rt.alloc();
    let words = words_of(alloc, words)?;
    assert!(rt; words.len() < 100);
    let text = Vec::from_slice(alloc, text)?;
    let mut source = MemSource::new(text, chunk.max(1), vec![in alloc; failing.take]?);
    let mut out = MemSink::new(alloc, 30_000, vec![in alloc; failing.give]?)?;
    let mut notes = MemSink::new(alloc, 1000, vec![in alloc; failing.note]?)?;
    let outcome = run(alloc, words.as_slice(), &mut source, &mut out, &mut notes);
    let report = Vec::from_slice(alloc, out.given())?;
    let note = Vec::from_slice(alloc, notes.given())?;
    Ok(Answer {
        status: outcome.code(),
        report,
        note,
    })
}

/// Whether a run on takes of at most `chunk` bytes answers what the case says.
pub(crate) fn is_answered(
    rt: &(impl Abort + AllocGlobal),
    case: &Case,
    chunk: usize,
    failing: Failing,
) -> Result<bool, Fail> {
    let answer = answer_to(rt, case.words, case.text.as_bytes(), chunk, failing)?;
    Ok(
        answer.status == case.status
            && answer.report.as_slice() == case.report.as_bytes()
            && answer.note.as_slice() == case.note.as_bytes(),
    )
}

/// The case of a text whose report is given whole.
pub(crate) fn done(text: &'static str, report: &'static str) -> Case {
    Case {
        words: PLAIN,
        text,
        report,
        note: "",
        status: 0,
    }
}

/// The case of words whose report is given whole.
pub(crate) fn asked(
    words: &'static [&'static str],
    text: &'static str,
    report: &'static str,
) -> Case {
    Case {
        words,
        ..done(text, report)
    }
}

/// Whether runs answer what each case says, on takes of one byte and of at most 7 bytes.
pub(crate) fn are_answered(rt: &(impl Abort + AllocGlobal), cases: &[Case]) -> Result<bool, Fail> {
    for case in cases {
        if !is_answered(rt, case, 1, NOTHING)? || !is_answered(rt, case, 7, NOTHING)? {
            return Ok(false);
        }
    }
    Ok(true)
}
