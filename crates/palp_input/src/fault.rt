// What is wrong with a text.
use lattice_core::NoMemory;
use thiserror::Error;

/// What is wrong at a place of a text. Where the place is a token or a number it is told by the
/// line and column of its first byte.
#[derive(Clone, Copy, Debug, PartialEq, Eq)]
pub enum TextKind {
    /// The first token of an item, or a token of a matrix, isn't a number. The place is that token.
    BadNumber,
    /// A number is 10^18 or more in absolute value, or is negative on an item's first line. The place
    /// is that number, with its `-` where it has one.
    NumberRange,
    /// The text ends before the matrix is complete. The place is the header's first token.
    MatrixShort,
    /// The weights of a system don't sum to its degree. The place is the degree.
    WeightSum,
    /// A system has another number of weights than the first one. The place is its degree.
    Lengths,
    /// A weight is 0 at the same place in every system. The place is that in the first system.
    ZeroColumn,
    /// The line has one number, or a weight line begins with 0. The place is the first token.
    NoWeights,
    /// The ignored text of an item's first line begins with `/Z`. The place is that `/`.
    Quotient,
    /// A byte that is no blank, no line end and not from 33 to 126 stands outside of ignored text. The
    /// place is that byte.
    BadByte,
}

/// A fault of a text. Lines and columns are counted from 1, columns by bytes.
#[derive(Clone, Copy, Debug, PartialEq, Eq, Error)]
#[error("line {line} column {column}: {kind:?}")]
pub struct TextFault {
    /// What is wrong.
    pub kind: TextKind,
    /// The line.
    pub line: u64,
    /// The place of the byte in its line.
    pub column: u64,
}

/// Why a reader gives no item and no end.
#[derive(Clone, Copy, Debug, PartialEq, Eq, Error)]
pub enum NextFault {
    /// The next item is faulty.
    #[error("{0}")]
    Text(TextFault),
    /// The text has more than 67,108,864 bytes, and the next item doesn't end within that many.
    #[error("the text is too long")]
    TooLong,
    /// The source failed.
    #[error("the source failed")]
    Read,
    /// There was no memory.
    #[error("no memory")]
    NoMemory,
}

impl From<NoMemory> for NextFault {
    ghost use Rattle.std.specs.Prelude.{◌≡◌};
    ghost use Rattle.palp_input.specs.declared.fault.NextFault.TheVariants as NextFault;

    ghost from_gives = { λ _ fault. fault ≡ NextFault.NoMemory };

    fn from(_: NoMemory) -> NextFault {
        NextFault::NoMemory
    }
}

/// A fault with its place, and the place behind the last byte of the faulty item, counted from 0
/// in the bytes that are read.
#[derive(Clone, Copy, Debug, PartialEq, Eq)]
pub struct ItemFault {
    /// What is wrong.
    pub kind: TextKind,
    /// The place.
    pub at: usize,
    /// The place behind the faulty item.
    pub end: usize,
}
