// The next bytes of a list, as the answer of a take.
ghost use Rattle.std.specs.Prelude.{◌≤◌, ◌<◌, min, take, drop, length};
ghost use Rattle.palp_io.specs.Source.{bytes_of};
ghost use Rattle.palp_io.specs.Memory.{GivesNext};
ghost use Rattle.palp_io.specs.MemorySteps.{PassesBytes};

use crate::taking::Took;

/// Copies the bytes from `position` on to the front of `buf`, at most `limit` of them, and moves
/// `position` behind them.
pub fn take_next(bytes: &[u8], position: &mut usize, limit: usize, buf: &mut [u8]) -> Took
    requires within { position.old ≤ length bytes.now }
    requires some { 1 ≤ limit }
    requires room { 0 < length buf.old }
    ensures passes { PassesBytes (drop position.old bytes.now) (take position.old bytes.now)
        (drop position.new bytes.now) (take position.new bytes.now) (bytes_of result buf.new) }
    ensures next { GivesNext (drop position.old bytes.now) (min limit (length buf.old)) result }
    ensures stays { position.new ≤ length bytes.now }
{
    let rest = &bytes[*position..];
    let count = limit.min(buf.len()).min(rest.len());
    if count == 0 {
        return Took::End;
    }
    buf[..count].copy_from_slice(&rest[..count]);
    *position += count;
    Took::Bytes(count)
}
