//! The notes: one line each.

ghost use Rattle.std.specs.Prelude.{◌≡◌, ◌+◌, ◌≤◌, ◌++◌, length};
ghost use Rattle.arrayvec.specs.ArrayVec.{array_vec_len};
ghost use Rattle.palp_print.specs.Notes.{note_line as note_line_of, limit_name, refusal_text, word_kind_name, text_kind_name};
ghost use Rattle.palp_print.specs.declared.notes.Note.TheVariants as Note;

use crate::line::{Line, fixed, put, put_function, put_number};
use arrayvec::ArrayVec;
use lattice_core::{LimitName, Refusal};
use palp_input::{TextFault, TextKind};
use palp_words::{WordFault, WordKind};

/// What a note tells: why a report isn't given whole.
#[derive(Debug, Drop)]
pub enum Note {
    /// A word of the command line is wrong.
    Words(WordFault),
    /// The text is faulty.
    Text(TextFault),
    /// The item with this number is refused for this cause.
    Refused(u64, Refusal),
    /// The text is too long.
    TextLimit,
    /// The source failed.
    ReadFault,
    /// The sink of the report failed.
    WriteFault,
    /// There was no memory.
    NoMemory,
}

/// The name of a limit: at most 13 bytes.
fn name_of(limit: LimitName) -> &'static [u8]
    ensures name { result.now ≡ limit_name limit }
    ensures short { length result.now ≤ 13 }
{
    match limit {
        LimitName::Systems => b"Systems",
        LimitName::Weights => b"Weights",
        LimitName::Degree => b"Degree",
        LimitName::DegreeProduct => b"DegreeProduct",
        LimitName::Frame => b"Frame",
        LimitName::Dim => b"Dim",
        LimitName::Input => b"Input",
        LimitName::Monomials => b"Monomials",
        LimitName::Size => b"Size",
        LimitName::Facets => b"Facets",
        LimitName::Vertices => b"Vertices",
        LimitName::Points => b"Points",
        LimitName::DualSize => b"DualSize",
        LimitName::DualPoints => b"DualPoints",
        LimitName::Faces => b"Faces",
        LimitName::Codim => b"Codim",
        LimitName::Rank => b"Rank",
        LimitName::ScanM => b"ScanM",
        LimitName::ScanN => b"ScanN",
        LimitName::Partitions => b"Partitions",
        LimitName::ConeFaces => b"ConeFaces",
        LimitName::ConeM => b"ConeM",
        LimitName::ConeN => b"ConeN",
        LimitName::Coef => b"Coef",
    }
}

/// Appends what the note says of a refusal.
fn put_refusal(line: &mut Line, cause: &Refusal)
    requires { array_vec_len line.old ≤ 80 }
    ensures bytes { line.new.items ≡ line.old.items ++ refusal_text cause.now }
    ensures len { array_vec_len line.new ≤ array_vec_len line.old + 340 }
{
    match cause {
        Refusal::Flat(function) => {
            put(line, b"flat: ");
            put_function(line, function);
        }
        Refusal::Limit(limit, told) => {
            put(line, b"limit ");
            put(line, name_of(*limit));
            put(line, b": ");
            put_number(line, *told);
        }
    }
}

/// The name of a fault of a word: at most 8 bytes.
fn word_kind(kind: WordKind) -> &'static [u8]
    ensures name { result.now ≡ word_kind_name kind }
    ensures short { length result.now ≤ 8 }
{
    match kind {
        WordKind::Missing => b"Missing",
        WordKind::Command => b"Command",
        WordKind::Flag => b"Flag",
        WordKind::Number => b"Number",
        WordKind::Range => b"Range",
        WordKind::Extra => b"Extra",
        WordKind::Conflict => b"Conflict",
    }
}

/// The name of a fault of a text: at most 11 bytes.
fn text_kind(kind: TextKind) -> &'static [u8]
    ensures name { result.now ≡ text_kind_name kind }
    ensures short { length result.now ≤ 11 }
{
    match kind {
        TextKind::BadNumber => b"BadNumber",
        TextKind::NumberRange => b"NumberRange",
        TextKind::MatrixShort => b"MatrixShort",
        TextKind::WeightSum => b"WeightSum",
        TextKind::Lengths => b"Lengths",
        TextKind::ZeroColumn => b"ZeroColumn",
        TextKind::NoWeights => b"NoWeights",
        TextKind::Quotient => b"Quotient",
        TextKind::BadByte => b"BadByte",
    }
}

/// The note of a wrong word.
fn words_note(fault: &WordFault) -> Line
    ensures { result.items ≡ note_line_of (Note.Words fault.now) }
{
    let mut line = fixed(b"palp: word ");
    put_number(&mut line, fault.index);
    put(&mut line, b": ");
    put(&mut line, word_kind(fault.kind));
    put(&mut line, b"\n");
    line
}

/// The note of a fault of a text.
fn text_note(fault: &TextFault) -> Line
    ensures { result.items ≡ note_line_of (Note.Text fault.now) }
{
    let mut line = fixed(b"palp: line ");
    put_number(&mut line, fault.line);
    put(&mut line, b" column ");
    put_number(&mut line, fault.column);
    put(&mut line, b": ");
    put(&mut line, text_kind(fault.kind));
    put(&mut line, b"\n");
    line
}

/// The note of a refusal.
fn refusal_note(item: u64, cause: &Refusal) -> Line
    ensures { result.items ≡ note_line_of (Note.Refused item cause.now) }
{
    let mut line = fixed(b"palp: item ");
    put_number(&mut line, item);
    put(&mut line, b": ");
    put_refusal(&mut line, cause);
    put(&mut line, b"\n");
    line
}

/// The line of a note, with its line end: at most 512 bytes. It takes no memory.
pub fn note_line(note: &Note) -> ArrayVec<u8, 512>
    ensures { result.items ≡ note_line_of note.now }
{
    match note {
        Note::Words(fault) => words_note(fault),
        Note::Text(fault) => text_note(fault),
        Note::Refused(item, cause) => refusal_note(*item, cause),
        Note::TextLimit => fixed(b"palp: text limit\n"),
        Note::ReadFault => fixed(b"palp: read fault\n"),
        Note::WriteFault => fixed(b"palp: write fault\n"),
        Note::NoMemory => fixed(b"palp: no memory\n"),
    }
}
