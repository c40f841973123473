// What a source of bytes is.

/// The answer of a take.
#[derive(Clone, Copy, PartialEq, Eq, Debug)]
pub enum Took {
    /// So many bytes stand at the front of the buffer. At least one.
    Bytes(usize),
    /// Nothing is left.
    End,
    /// The call failed and took nothing.
    Failed,
}

/// A source of bytes.
pub trait Source {
    ghost use Rattle.std.specs.Prelude.{◌<◌, length};
    ghost use Rattle.palp_io.specs.Source.{SourceState, Takes};

    // What is left and what was taken, where the source tells it, whether it has ended, and how many
    // calls failed.
    ghost state: { Self → SourceState };

    /// Takes the next bytes, as many as the source likes and `buf` has room for. They are written
    /// to the front of `buf`. It answers `End` where nothing is left, and `Failed` only where the
    /// count of faults rose in this call, which then took nothing.
    fn take(&mut self, buf: &mut [u8]) -> Took
        requires { 0 < length buf.old }
        ensures { Takes result buf.new (state self.old) (state self.new) };
}
