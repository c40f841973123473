// What a sink for bytes is.

/// The answer of a give.
#[derive(Clone, Copy, PartialEq, Eq, Debug)]
pub enum Gave {
    /// The piece was appended, whole.
    All,
    /// The call failed. A front of the piece was appended, which may be empty.
    Failed,
}

/// A sink for bytes.
pub trait Sink {
    ghost use Rattle.palp_io.specs.Sink.{SinkState, Gives};

    // The bytes given so far, where the sink tells them, and how many calls failed.
    ghost state: { Self → SinkState };

    /// Appends `piece`. It answers `Failed` only where the count of faults rose in this call, and
    /// then a front of the piece was appended.
    fn give(&mut self, piece: &[u8]) -> Gave
        ensures { Gives result piece.now (state self.old) (state self.new) };
}
