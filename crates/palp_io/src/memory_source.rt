// A source in memory that fails where it is told to.
ghost use Rattle.std.specs.Prelude.{◌≡◌, ◌<◌, ◌≤◌, [], false, length, Some};
ghost use Rattle.palp_io.specs.Source.{Takes};
ghost use Rattle.palp_io.specs.Memory.{TakesFromMemory, source_state};

use crate::listing::is_listed;
use crate::next_bytes::take_next;
use crate::taking::{Source, Took};
use std::marker::Model;

/// A source in memory that gives at most so many bytes in each call, and fails in the calls that
/// it is told to fail in. Contracts see what is left and what was taken, whether the last take
/// answered `End`, the count of faults, the most bytes of a call, how many calls there were, and
/// the numbers of the failing calls.
#[derive(Drop)]
pub struct MemSource {
    bytes: Vec<u8>,
    position: usize,
    at_end: bool,
    fault_count: u64,
    chunk: usize,
    call_count: u64,
    failing: Vec<u64>,
}

impl Model for MemSource {
    ghost use Rattle.std.specs.Prelude.{◌≤◌, take, drop, length};
    ghost use Rattle.palp_io.specs.Memory.{SourceInMemory};
    ghost use Rattle.palp_io.specs.MemorySteps.{IsSourceInside};

    ghost Value = { SourceInMemory };

    ghost view = { λ s. record {
      left = drop s.position s.bytes.items;
      taken = take s.position s.bytes.items;
      ended = s.at_end;
      faults = s.fault_count;
      chunk = s.chunk;
      calls = s.call_count;
      failing = s.failing.items;
    } };

    ghost invariant = { λ s. IsSourceInside s.position (length s.bytes.items) s.chunk };
}

impl MemSource {
    /// A source that gives `bytes`, at most `chunk` in each call. Exactly the calls whose numbers,
    /// counted from 1, stand in `failing` fail. A call's number stays at 2^64 - 1 once it is
    /// reached.
    pub fn new(bytes: Vec<u8>, chunk: usize, failing: Vec<u64>) -> MemSource
        requires { 1 ≤ chunk }
        ensures { result ≡ record {
          left = bytes.items;
          taken = [];
          ended = false;
          faults = 0;
          chunk = chunk;
          calls = 0;
          failing = failing.items;
        } }
    {
        MemSource {
            bytes,
            position: 0,
            at_end: false,
            fault_count: 0,
            chunk,
            call_count: 0,
            failing,
        }
    }
}

impl Source for MemSource {
    ghost state = { source_state };

    fn take(&mut self, buf: &mut [u8]) -> Took
        requires { 0 < length buf.old }
        ensures takes { Takes result buf.new (source_state self.old) (source_state self.new) }
        ensures exact { TakesFromMemory self.old self.new (length buf.new) result }
    {
        self.call_count = self.call_count.saturating_add(1);
        if is_listed(&self.failing, self.call_count) {
            self.fault_count = self.fault_count.saturating_add(1);
            self.at_end = false;
            return Took::Failed;
        }
        let answer = take_next(&self.bytes, &mut self.position, self.chunk, buf);
        self.at_end = answer == Took::End;
        answer
    }
}

#[cfg(test)]
mod tests {
    use super::*;
    use std::test::Fail;

    #[test]
    fn gives_chunks_and_fails_where_told(rt: HostRuntime) -> Result<(), Fail> {
        let bytes = vec![in rt.alloc(); 1, 2, 3, 4, 5, 6, 7]?;
        let failing = vec![in rt.alloc(); 2, 6]?;
        let mut source = MemSource::new(bytes, 3, failing);
        let cases = [
            (4, Took::Bytes(3), 1),
            (4, Took::Failed, 0),
            (2, Took::Bytes(2), 4),
            (4, Took::Bytes(2), 6),
            (4, Took::End, 0),
            (4, Took::Failed, 0),
            (4, Took::End, 0),
        ];
        for (room, answer, first) in cases {
            let mut buf = [0; 4];
            assert!(rt; 0 < room && room <= 4);
            assert_eq!(rt; source.take(&mut buf[..room]), answer, "at {first}");
            assert_eq!(rt; buf[0], first);
        }
        Ok(())
    }
}
