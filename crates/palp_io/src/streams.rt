// The program's streams as a source and as sinks.
ghost use Rattle.std.specs.Prelude.{◌≡◌, ◌<◌, ◌≤◌, None, [], false, length, IfOk};
ghost use Rattle.std.specs.Io.KnownBytes.{Consumes};
ghost use Rattle.palp_io.specs.Source.{Takes, bytes_of};
ghost use Rattle.palp_io.specs.Sink.{Gives};
ghost use Rattle.palp_io.specs.Streams.{CountsGive, CountsTake, EndsStream, WritesPiece, untold_sink, untold_source};

use crate::giving::{Gave, Sink};
use crate::taking::{Source, Took};
use std::io::{Read, Write};

/// A reader of `std` as a source. It tells no content. Its count of faults begins with 0 and
/// rises at each `Err` of the reader.
#[derive(Drop)]
pub struct StdSource<R> {
    inner: R,
    fault_count: u64,
    at_end: bool,
}

impl<R: Read + Drop> StdSource<R> {
    /// A source that reads from `inner`.
    pub fn new(inner: R) -> StdSource<R>
        ensures keeps { result.inner ≡ inner }
        ensures begins { ⟦<StdSource<R> as Source>⟧.state result ≡ untold_source false 0 }
    {
        StdSource {
            inner,
            fault_count: 0,
            at_end: false,
        }
    }
}

impl<R: Read + Drop> Source for StdSource<R> {
    ghost state = { λ s. untold_source s.at_end s.fault_count };

    /// One read of the reader, in which 0 bytes are `End`. Where the reader tells its bytes, the
    /// ones that the take gives are the next of these.
    fn take(&mut self, buf: &mut [u8]) -> Took
        requires { 0 < length buf.old }
        ensures takes { Takes result buf.new (untold_source self.old.at_end self.old.fault_count)
            (untold_source self.new.at_end self.new.fault_count) }
        ensures counts { CountsTake result self.old.fault_count self.new.fault_count }
        ensures reads { Consumes (R.remaining self.old.inner) (R.remaining self.new.inner)
            (bytes_of result buf.new) }
        ensures ends { EndsStream result (R.remaining self.new.inner) }
    {
        let one_more_fault = self.fault_count.saturating_add(1);
        self.at_end = false;
        match self.inner.read(buf) {
            Ok(0) => {
                self.at_end = true;
                Took::End
            }
            Ok(count) => Took::Bytes(count),
            Err(_) => {
                self.fault_count = one_more_fault;
                Took::Failed
            }
        }
    }
}

/// A writer of `std` as a sink. It tells no content. Its count of faults begins with 0 and rises
/// at each `Err` of the writer, and at a write of 0 bytes.
#[derive(Drop)]
pub struct StdSink<W> {
    inner: W,
    fault_count: u64,
}

impl<W: Write + Drop> StdSink<W> {
    /// A sink that writes to `inner`.
    pub fn new(inner: W) -> StdSink<W>
        ensures keeps { result.inner ≡ inner }
        ensures begins { ⟦<StdSink<W> as Sink>⟧.state result ≡ untold_sink 0 }
    {
        StdSink {
            inner,
            fault_count: 0,
        }
    }
}

impl<W: Write + Drop> Sink for StdSink<W> {
    ghost state = { λ s. untold_sink s.fault_count };

    /// Writes the piece, whole, and flushes. Where the writer tells its bytes, these gain the
    /// piece, or a front of it where the give failed.
    fn give(&mut self, piece: &[u8]) -> Gave
        ensures gives { Gives result piece.now (untold_sink self.old.fault_count) (untold_sink self.new.fault_count) }
        ensures counts { CountsGive result self.old.fault_count self.new.fault_count }
        ensures writes { WritesPiece result piece.now (W.contents self.old.inner)
            (W.contents self.new.inner) }
    {
        let one_more_fault = self.fault_count.saturating_add(1);
        let answer = write_whole(&mut self.inner, piece);
        if answer == Gave::Failed {
            self.fault_count = one_more_fault;
        }
        answer
    }
}

/// Writes the piece, whole, and flushes.
fn write_whole<W: Write>(writer: &mut W, piece: &[u8]) -> Gave
    ensures { WritesPiece result piece.now (W.contents writer.old) (W.contents writer.new) }
{
    let mut rest = piece;
    while !rest.is_empty() {
        match writer.write(rest) {
            Ok(0) | Err(_) => return Gave::Failed,
            Ok(count) => rest = &rest[count..],
        }
    }
    match writer.flush() {
        Ok(()) => Gave::All,
        Err(_) => Gave::Failed,
    }
}

#[cfg(test)]
mod tests {
    use super::*;
    use std::io;
    use std::io::ErrorKind;
    use std::test::Fail;

    // Fails once, and then passes a byte in each call, twice.
    #[derive(Drop)]
    struct Slow {
        step: u8,
        seen: u8,
    }

    impl Slow {
        fn next_count(&mut self) -> io::Result<usize>
            ensures { IfOk result (λ n. n ≤ 1) }
        {
            let step = self.step;
            self.step = step.saturating_add(1);
            match step {
                0 => Err(ErrorKind::Other.into()),
                1 | 2 => Ok(1),
                _ => Ok(0),
            }
        }
    }

    impl Read for Slow {
        fn read(&mut self, buf: &mut [u8]) -> io::Result<usize> {
            if buf.is_empty() {
                return Ok(0);
            }
            buf[0] = b'a';
            self.next_count()
        }
    }

    impl Write for Slow {
        fn write(&mut self, buf: &[u8]) -> io::Result<usize> {
            if buf.is_empty() {
                return Ok(0);
            }
            self.seen = buf[0];
            self.next_count()
        }

        fn flush(&mut self) -> io::Result<()> {
            Ok(())
        }
    }

    // Takes a byte in each call, and keeps it.
    #[derive(Drop)]
    struct Narrow {
        bytes: Vec<u8>,
    }

    impl Write for Narrow {
        fn write(&mut self, buf: &[u8]) -> io::Result<usize> {
            let Some(first) = buf.first() else {
                return Ok(0);
            };
            match self.bytes.push(*first) {
                Ok(()) => Ok(1),
                Err(_) => Err(ErrorKind::OutOfMemory.into()),
            }
        }

        fn flush(&mut self) -> io::Result<()> {
            Ok(())
        }
    }

    // Takes all that it is given, and fails to pass it on.
    #[derive(Drop)]
    struct Stuck {
        taken: usize,
    }

    impl Write for Stuck {
        fn write(&mut self, buf: &[u8]) -> io::Result<usize> {
            self.taken = buf.len();
            Ok(buf.len())
        }

        fn flush(&mut self) -> io::Result<()> {
            Err(ErrorKind::Other.into())
        }
    }

    #[test]
    fn source_counts_an_err_and_ends(rt: HostRuntime) {
        let mut source = StdSource::new(Slow { step: 0, seen: 0 });
        let answers = [Took::Failed, Took::Bytes(1), Took::Bytes(1), Took::End];
        for answer in answers {
            assert_eq!(rt; source.take(&mut [0; 4]), answer);
            assert_eq!(rt; source.at_end, answer == Took::End);
        }
        assert_eq!(rt; source.fault_count, 1);
    }

    #[test]
    fn sink_writes_all_and_counts_faults(rt: HostRuntime) -> Result<(), Fail> {
        let mut slow = StdSink::new(Slow { step: 0, seen: 0 });
        let cases = [
            (Gave::Failed, b'b', 1),
            (Gave::All, b'c', 1),
            (Gave::Failed, b'b', 2),
        ];
        for (answer, seen, faults) in cases {
            assert_eq!(rt; slow.give(b"bc"), answer);
            assert_eq!(rt; slow.inner.seen, seen);
            assert_eq!(rt; slow.fault_count, faults);
        }
        let mut whole = StdSink::new(Vec::new(rt.alloc()));
        assert_eq!(rt; whole.give(b"bc"), Gave::All);
        assert_eq!(rt; whole.give(b"d"), Gave::All);
        assert_eq!(rt; whole.inner.as_slice(), b"bcd".as_slice());
        Ok(())
    }

    #[test]
    fn long_pieces_are_written_whole(rt: HostRuntime) -> Result<(), Fail> {
        let piece = [b'p'; 10_000];
        let mut whole = StdSink::new(Vec::new(rt.alloc()));
        assert_eq!(rt; whole.give(&piece), Gave::All);
        assert_eq!(rt; whole.inner.as_slice(), piece.as_slice());
        let mut narrow = StdSink::new(Narrow {
            bytes: Vec::new(rt.alloc()),
        });
        assert_eq!(rt; narrow.give(&piece), Gave::All);
        assert_eq!(rt; narrow.inner.bytes.as_slice(), piece.as_slice());
        assert_eq!(rt; narrow.fault_count, 0);
        Ok(())
    }

    #[test]
    fn failed_flush_is_a_fault(rt: HostRuntime) {
        let mut stuck = StdSink::new(Stuck { taken: 0 });
        assert_eq!(rt; stuck.give(b"bcd"), Gave::Failed);
        assert_eq!(rt; stuck.inner.taken, 3);
        assert_eq!(rt; stuck.fault_count, 1);
        assert_eq!(rt; stuck.give(b""), Gave::Failed);
        assert_eq!(rt; stuck.fault_count, 2);
    }
}
