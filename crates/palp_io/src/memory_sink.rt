// A sink in memory that fails where it is told to.
ghost use Rattle.std.specs.Prelude.{◌≡◌, ◌≤◌, [], IfOk, Some};
ghost use Rattle.palp_io.specs.Sink.{Gives};
ghost use Rattle.palp_io.specs.Memory.{GivesToMemory, sink_state};

use crate::giving::{Gave, Sink};
use crate::listing::is_listed;
use lattice_core::NoMemory;
use std::alloc::Global;
use std::marker::Model;

/// A sink in memory that has room for so many bytes, and fails in the calls that it is told to
/// fail in. Contracts see the bytes given, the count of faults, the room that is left, how many
/// calls there were, and the numbers of the failing calls.
#[derive(Drop)]
pub struct MemSink {
    bytes: Vec<u8>,
    room_left: usize,
    fault_count: u64,
    call_count: u64,
    failing: Vec<u64>,
}

impl Model for MemSink {
    ghost use Rattle.std.specs.Prelude.{◌+◌, ◌≤◌, vec_len, vec_capacity};
    ghost use Rattle.palp_io.specs.Memory.{SinkInMemory};

    ghost Value = { SinkInMemory };

    ghost view = { λ s. record {
      given = s.bytes.items;
      faults = s.fault_count;
      room = s.room_left;
      calls = s.call_count;
      failing = s.failing.items;
    } };

    ghost invariant = { λ s. vec_len s.bytes + s.room_left ≤ vec_capacity s.bytes };
}

impl MemSink {
    /// An empty sink with room for `room` bytes, whose memory it takes at once. Exactly the gives
    /// whose numbers, counted from 1, stand in `failing`, or whose piece is longer than the room
    /// that is left, fail. A call's number stays at 2^64 - 1 once it is reached. `NoMemory` comes
    /// where the memory isn't found.
    pub fn new(alloc: Global, room: usize, failing: Vec<u64>) -> Result<MemSink, NoMemory>
        ensures { IfOk result (λ sink. sink ≡ record {
          given = [];
          faults = 0;
          room = room;
          calls = 0;
          failing = failing.items;
        }) }
    {
        Ok(MemSink {
            bytes: Vec::with_capacity(alloc, room)?,
            room_left: room,
            fault_count: 0,
            call_count: 0,
            failing,
        })
    }

    /// The bytes given so far.
    pub fn given(&self) -> &[u8]
        ensures { result.now ≡ self.now.given }
    {
        &self.bytes
    }
}

impl Sink for MemSink {
    ghost state = { sink_state };

    fn give(&mut self, piece: &[u8]) -> Gave
        ensures gives { Gives result piece.now (sink_state self.old) (sink_state self.new) }
        ensures exact { GivesToMemory self.old self.new piece.now result }
    {
        self.call_count = self.call_count.saturating_add(1);
        let fits = piece.len() <= self.room_left;
        let in_turn = !is_listed(&self.failing, self.call_count);
        if fits && in_turn && self.bytes.extend_from_slice(piece).is_ok() {
            self.room_left -= piece.len();
            Gave::All
        } else {
            self.fault_count = self.fault_count.saturating_add(1);
            Gave::Failed
        }
    }
}

#[cfg(test)]
mod tests {
    use super::*;
    use std::test::Fail;

    #[test]
    fn fails_without_room_and_where_told(rt: HostRuntime) -> Result<(), Fail> {
        let mut sink = MemSink::new(rt.alloc(), 3, vec![in rt.alloc(); 2]?)?;
        let cases = [
            ([7, 7, 7, 7].as_slice(), Gave::Failed, [].as_slice()),
            ([1].as_slice(), Gave::Failed, [].as_slice()),
            ([1, 2].as_slice(), Gave::All, [1, 2].as_slice()),
            ([3].as_slice(), Gave::All, [1, 2, 3].as_slice()),
            ([4].as_slice(), Gave::Failed, [1, 2, 3].as_slice()),
        ];
        for (piece, answer, given) in cases {
            assert_eq!(rt; sink.give(piece), answer);
            assert_eq!(rt; sink.given(), given);
        }
        Ok(())
    }
}
