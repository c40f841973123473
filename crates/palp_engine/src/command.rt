//! The top call.

ghost use Rattle.std.specs.Prelude.{◌≡◌, ◌<◌, ◌≤◌, ◌^◌, map, length};
ghost use Rattle.std.specs.String.{string_bytes};
ghost use Rattle.palp_engine.specs.Commands.{HasSomeParts, ReadsText};
ghost use Rattle.palp_engine.specs.Notes.{note_of as outcome_note, IsNoted};
ghost use Rattle.palp_engine.specs.RunSteps.{IsAnswered, IsPerformed, IsStopped, IsGiven, outcome_unread};
ghost use Rattle.palp_engine.specs.Runs.{HasTaken, LeavesSource, TellsBadWords, IsDone, IsRefusal, IsReported, HasReadFault, HasWriteFault, IsReportedInPart, IsComplete};
ghost use Rattle.palp_engine.specs.declared.outcome.Outcome.TheVariants.{Done, ReadFault, WriteFault, NoMemory};

use crate::Outcome;
use crate::lists::list_outcome;
use crate::session::{ItemFault, Session, report_item};
use lattice_core::Refusal;
use palp_input::{NextFault, Reader};
use palp_io::{Sink, Source};
use palp_print::{Note, note_line};
use palp_words::{Job, read_words};
use std::alloc::Global;
use weight_lists::{list_systems, sum_up};

/// The same cause again. It takes no memory.
fn same_cause(cause: &Refusal) -> Refusal
    ensures { result ≡ cause.now }
{
    match cause {
        Refusal::Flat(function) => Refusal::Flat(function.copied()),
        Refusal::Limit(limit, told) => Refusal::Limit(*limit, *told),
    }
}

/// The note of an outcome; none for `Done`.
fn note_of(outcome: &Outcome) -> Option<Note>
    ensures { result ≡ outcome_note outcome.now }
{
    match outcome {
        Outcome::Done => None,
        Outcome::BadWords(fault) => Some(Note::Words(*fault)),
        Outcome::BadText(fault) => Some(Note::Text(*fault)),
        Outcome::Refused { item, cause } => Some(Note::Refused(*item, same_cause(cause))),
        Outcome::TextLimit => Some(Note::TextLimit),
        Outcome::ReadFault => Some(Note::ReadFault),
        Outcome::WriteFault => Some(Note::WriteFault),
        Outcome::NoMemory => Some(Note::NoMemory),
    }
}

/// The outcome where the reader gives no item and no end.
fn unread(fault: NextFault) -> Outcome
    ensures { result ≡ outcome_unread fault }
{
    match fault {
        NextFault::Text(fault) => Outcome::BadText(fault),
        NextFault::TooLong => Outcome::TextLimit,
        NextFault::Read => Outcome::ReadFault,
        NextFault::NoMemory => Outcome::NoMemory,
    }
}

/// The outcome of an item with this number whose report isn't given whole.
fn stopped(number: u64, fault: ItemFault) -> Outcome
    ensures { IsStopped number fault result }
{
    match fault {
        ItemFault::Refused(cause) => Outcome::Refused {
            item: number,
            cause,
        },
        ItemFault::Write => Outcome::WriteFault,
        ItemFault::NoMemory => Outcome::NoMemory,
    }
}

/// Reports the items of the source, each before the next one is read, up to the first that is refused.
fn report<S: Source, O: Sink>(alloc: Global, job: &Job, src: &mut S, out: &mut O) -> Outcome
    requires parts { HasSomeParts job.now }
    requires reads { ReadsText job.now }
    ensures { IsPerformed job.now (S.state src.old) (S.state src.new) (O.state out.old) (O.state out.new) result }
{
    let Ok(mut session) = Session::open(alloc) else {
        return Outcome::NoMemory;
    };
    let mut reader = Reader::new(alloc);
    let mut number = 0;
    loop {
        let item = match reader.next_item(src) {
            Ok(Some(item)) => item,
            Ok(None) => return Outcome::Done,
            Err(fault) => return unread(fault),
        };
        number += 1;
        if let Err(fault) = report_item(&mut session, job, &item, out) {
            return stopped(number, fault);
        }
    }
}

/// Does the job that some words give.
fn perform<S: Source, O: Sink>(alloc: Global, job: &Job, src: &mut S, out: &mut O) -> Outcome
    requires parts { HasSomeParts job.now }
    requires given { IsGiven job.now }
    ensures { IsPerformed job.now (S.state src.old) (S.state src.new) (O.state out.old) (O.state out.new) result }
{
    match job {
        Job::Poly(_) => report(alloc, job, src, out),
        Job::Nef(_) => report(alloc, job, src, out),
        Job::Cws(words) => list_outcome(list_systems(alloc, words, out)),
        Job::Sweep(words) => list_outcome(sum_up(alloc, words, out)),
    }
}

/// Does what the words say, but for the note.
fn answer<S: Source, O: Sink>(alloc: Global, words: &[String], src: &mut S, out: &mut O) -> Outcome
    requires { length words.now < 2 ^ 31 }
    ensures { IsAnswered (map string_bytes words.now) (S.state src.old) (S.state src.new) (O.state out.old) (O.state out.new) result }
{
    match read_words(words) {
        Ok(job) => perform(alloc, &job, src, out),
        Err(fault) => Outcome::BadWords(fault),
    }
}

/// Runs the command that the words say, which are those of the command line without the program's name; there are fewer than 2^31.
///
/// `poly` reads the items of the source's text (docs/formats.md) and reports them one after another, each before it reads on: for each one the
/// blocks that its letters ask. `g` is the general line, behind the numbers of a weight line: of a reflexive polytope
/// `M:points vertices N:points vertices` with the numbers of the dual and, in dimension 3, 4 and 5, Batyrev's numbers, and otherwise, or with `n`,
/// `M:points vertices F:facets`. `p` are the lattice points, `v` the vertices, `e` the facets, `m` the pairing of facets and vertices, `d` the
/// points of the dual of a reflexive polytope, `i` the numbers of faces and which vertices lie on which facets, and `a` all of these but `i`. With
/// `D` the dual of a reflexive polytope takes its place in all of this, and with `r` nothing is printed of a polytope that isn't reflexive.
/// `nef` reads the items, too, and gives of each one the line of its numbers, and of a reflexive polytope each of its nef partitions
/// (alg-geom/9509009), as it is found, and the line that tells how many there are. Without `p` a partition stands with its stringy Hodge numbers of one
/// line and its Euler number, and with `H` with all Hodge numbers below. `Done` comes where the whole report was given. `Refused` tells
/// the first item that exceeds a limit (docs/limits.md) or is flat, `BadText` the first fault of the text, and `TextLimit` a text of more than
/// 67,108,864 bytes; the items before are reported.
///
/// `cws` and `sweep` read nothing, and leave the source as it was. They go through the interior-point weight systems of a range
/// (math/0204356), by degree and then by weights. `cws` gives a line for each of them, and with `-r` for each whose polytope is reflexive, and then
/// the line of their number; `sweep` gives one line: how many there are, how many have a reflexive polytope, and the sums of the numbers of lattice
/// points of all polytopes and of the duals of the reflexive ones. With `-r` and in `sweep` a system is refused by the first limit that it
/// exceeds of those that stand for them, and its number is its place in the list of all systems of the range.
///
/// Words that give no job are `BadWords`; nothing is read then. `ReadFault` and `WriteFault` come only where the count of faults of the source, or of
/// `out`, rose in this call; `NoMemory` may come at any step of a job. At most 67,108,865 bytes are taken. Where the report is empty nothing is given
/// to `out`. For each outcome but `Done` the outcome's note line is given to `notes`, or a front of it where the count
/// of faults of `notes` rose, which changes nothing else.
///
/// The text is what the source had left. Of a source that doesn't tell that, as a real stream, it is the bytes that passed: the clauses say
/// then that there are such bytes, whose report is the one that was given.
pub fn run<S: Source, O: Sink, N: Sink>(
    alloc: Global,
    words: &[String],
    src: &mut S,
    out: &mut O,
    notes: &mut N,
) -> Outcome
    requires { length words.now < 2 ^ 31 }

    // Some bytes passed from the source, at most 67,108,865.
    ensures taken { HasTaken (S.state src.old) (S.state src.new) }

    // `BadWords` comes exactly where the words have that fault; nothing was read or given then.
    ensures bad_words { TellsBadWords (map string_bytes words.now) result (S.state src.old) (S.state src.new) (O.state out.old) (O.state out.new) }

    // A job that reads no text, as `cws` and `sweep`, leaves the source as it was.
    ensures source_kept { LeavesSource (map string_bytes words.now) (S.state src.old) (S.state src.new) }

    // With `Done` the report was appended, whole, and the source was read to its end where the job reads a text, as `poly` does.
    ensures done { result ≡ Done → IsDone (map string_bytes words.now) (S.state src.old) (S.state src.new) (O.state out.old) (O.state out.new) }

    // With `BadText`, `Refused` and `TextLimit` the report was appended, whole, and ends with this outcome.
    ensures refusals { IsRefusal result
        → IsReported (map string_bytes words.now) (S.state src.old) (S.state src.new) (O.state out.old) (O.state out.new) result }

    // With `ReadFault` the count of faults of the source rose, and exactly the pieces of those items were appended whose last line end stands
    // among the bytes that passed. With `WriteFault` that of `out` rose; with it and with `NoMemory` a front of the report was appended.
    ensures read_fault { result ≡ ReadFault
        → HasReadFault (map string_bytes words.now) (S.state src.old) (S.state src.new) (O.state out.old) (O.state out.new) }
    ensures write_fault { result ≡ WriteFault
        → HasWriteFault (map string_bytes words.now) (S.state src.old) (S.state src.new) (O.state out.old) (O.state out.new) }
    ensures no_memory { result ≡ NoMemory
        → IsReportedInPart (map string_bytes words.now) (S.state src.old) (S.state src.new) (O.state out.old) (O.state out.new) }

    // Where no count of faults of the source or `out` rose, the outcome is that of the words and the text, or `NoMemory`.
    ensures completeness { IsComplete (map string_bytes words.now) result (S.state src.old) (S.state src.new) (O.state out.old) (O.state out.new) }

    // Whatever `notes` answers: the outcome's note line was given to it, whole where its count of faults didn't rise, and nothing else.
    ensures notes { IsNoted (outcome_note result) (N.state notes.old) (N.state notes.new) }

    // No count of faults fell.
    ensures source_faults { (S.state src.old).faults ≤ (S.state src.new).faults }
    ensures out_faults { (O.state out.old).faults ≤ (O.state out.new).faults }
    ensures note_faults { (N.state notes.old).faults ≤ (N.state notes.new).faults }
{
    let outcome = answer(alloc, words, src, out);
    if let Some(note) = note_of(&outcome) {
        let _answer = notes.give(note_line(&note).as_slice());
    }
    outcome
}
