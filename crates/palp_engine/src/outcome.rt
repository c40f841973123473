//! How a run ended.

ghost use Rattle.std.specs.Prelude.{◌≡◌};

use lattice_core::Refusal;
use palp_input::TextFault;
use palp_words::WordFault;

/// How a run ended.
#[derive(Debug, Drop)]
pub enum Outcome {
    /// The whole report was given, and where the job reads a text the source was read to its end.
    Done,
    /// A word of the command line is wrong.
    BadWords(WordFault),
    /// The text is faulty behind the items that were reported.
    BadText(TextFault),
    /// An item was refused: its number, counted from 1, and the cause.
    Refused { item: u64, cause: Refusal },
    /// The text has more than 67,108,864 bytes, and the items that end within that many were reported.
    TextLimit,
    /// The source failed.
    ReadFault,
    /// The sink of the report failed.
    WriteFault,
    /// There was no memory.
    NoMemory,
}

impl Outcome {
    ghost use Rattle.palp_engine.specs.Statuses.{status};

    /// The exit status: 0 for `Done`, 1 for `NoMemory`, 2 for `BadWords`, 3 for `BadText`, 4 for `Refused`, 5 for `TextLimit`, 6 for
    /// `ReadFault` and 7 for `WriteFault`.
    pub fn code(&self) -> u8
        ensures { result ≡ status self.now }
    {
        match self {
            Outcome::Done => 0,
            Outcome::NoMemory => 1,
            Outcome::BadWords(_) => 2,
            Outcome::BadText(_) => 3,
            Outcome::Refused { .. } => 4,
            Outcome::TextLimit => 5,
            Outcome::ReadFault => 6,
            Outcome::WriteFault => 7,
        }
    }
}
