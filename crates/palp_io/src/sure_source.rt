// A source in memory that never fails.
ghost use Rattle.std.specs.Prelude.{◌≡◌, ◌<◌, [], false, length, Some};
ghost use Rattle.palp_io.specs.Source.{Takes};
ghost use Rattle.palp_io.specs.Memory.{GivesNext, sure_state};

use crate::next_bytes::take_next;
use crate::taking::{Source, Took};
use std::marker::Model;

/// A source in memory that never fails: its count of faults is always 0. Contracts see what is
/// left, what was taken and whether the last take answered `End`.
#[derive(Drop)]
pub struct NeverFails {
    bytes: Vec<u8>,
    position: usize,
    at_end: bool,
}

impl Model for NeverFails {
    ghost use Rattle.std.specs.Prelude.{◌≤◌, take, drop, length};
    ghost use Rattle.palp_io.specs.Memory.{SureSource};

    ghost Value = { SureSource };

    ghost view = { λ s. record {
      left = drop s.position s.bytes.items;
      taken = take s.position s.bytes.items;
      ended = s.at_end;
    } };

    ghost invariant = { λ s. s.position ≤ length s.bytes.items };
}

impl NeverFails {
    /// A source that gives `bytes`, as many in each call as the buffer has room for.
    pub fn new(bytes: Vec<u8>) -> NeverFails
        ensures { result ≡ record { left = bytes.items; taken = []; ended = false } }
    {
        NeverFails {
            bytes,
            position: 0,
            at_end: false,
        }
    }
}

impl Source for NeverFails {
    ghost state = { sure_state };

    fn take(&mut self, buf: &mut [u8]) -> Took
        requires { 0 < length buf.old }
        ensures takes { Takes result buf.new (sure_state self.old) (sure_state self.new) }
        ensures exact { GivesNext self.old.left (length buf.new) result }
    {
        let room = buf.len();
        let answer = take_next(&self.bytes, &mut self.position, room, buf);
        self.at_end = answer == Took::End;
        answer
    }
}

#[cfg(test)]
mod tests {
    use super::*;
    use std::test::Fail;

    #[test]
    fn gives_all_and_ends(rt: HostRuntime) -> Result<(), Fail> {
        let mut source = NeverFails::new(vec![in rt.alloc(); 1, 2, 3]?);
        for (answer, first) in [(Took::Bytes(2), 1), (Took::Bytes(1), 3), (Took::End, 0)] {
            let mut buf = [0; 2];
            assert_eq!(rt; source.take(&mut buf), answer, "at {first}");
            assert_eq!(rt; buf[0], first);
        }
        Ok(())
    }
}
