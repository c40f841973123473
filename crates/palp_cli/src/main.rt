//! The program `palp`: it makes the real streams, hands them with the words of the command line to `palp_engine::run`, and ends with
//! the outcome's status. It stands on `palp_engine` and `palp_io` and proves nothing of its own: what the streams give and show is
//! trusted.
#![tactic(auto)]

use palp_engine::run;
use palp_io::{StdSink, StdSource};
use std::env;
use std::io::{self, ErrorKind};
use std::process::ExitCode;
use std::rt::Env;

/// The words of the command line, without the program's name.
fn command_words(rt: &(impl Env + AllocGlobal)) -> io::Result<Vec<String>> {
    Ok(env::args(rt)?.skip(1).collect(rt.alloc())?)
}

/// Ends with 1 where there is no memory for the words, and with 9 where they can't be had for another cause or are too many.
fn main(rt: HostRuntime) -> ExitCode {
    let words = match command_words(&rt) {
        Ok(words) => words,
        Err(error) if error.kind() == ErrorKind::OutOfMemory => return ExitCode::from(1),
        Err(_) => return ExitCode::from(9),
    };
    if words.len() >= 1 << 31 {
        return ExitCode::from(9);
    }
    let mut source = StdSource::new(rt.stdin());
    let mut out = StdSink::new(rt.stdout());
    let mut notes = StdSink::new(rt.stderr());
    let outcome = run(
        rt.alloc(),
        words.as_slice(),
        &mut source,
        &mut out,
        &mut notes,
    );
    ExitCode::from(outcome.code())
}
