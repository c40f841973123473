// A reader of items.
ghost use Rattle.std.specs.Prelude.{◌≡◌, ◌+◌, ◌*◌, ◌≤◌, ◌<◌, ◌^◌, ◌||◌, nat_lt, ◌++◌, replicate, MatchResult, [], true, false, length, take, drop};
ghost use Rattle.palp_input.specs.Grammar.{line_feeds, column_behind, most_bytes, text_fault};
ghost use Rattle.palp_input.specs.OpeningSteps.{Seen};
ghost use Rattle.palp_input.specs.ReaderSteps.{HeldMeans, LastMeans, TakeMoreMeans, TakeIntoMeans};
ghost use Rattle.palp_input.specs.Reading.{IsHanded, NextMeans};

use crate::fault::{ItemFault, NextFault, TextFault};
use crate::grammar::{Found, first_item};
use crate::item::Item;
use crate::openings::{Look, Opening, look_at};
use lattice_core::NoMemory;
use palp_io::{Source, Took};
use std::alloc::Global;
use std::marker::Model;

/// The most bytes of a text.
pub const MOST_BYTES: usize = 67_108_864;

/// The most bytes of one take.
const CHUNK: usize = 65_536;

/// The most bytes of the first take, so that a short text costs little.
const FIRST_TAKE: usize = 4_096;

/// The most bytes of a take behind one that gave next to nothing.
const LEAST_TAKE: usize = 256;

/// What a look at the bytes held gives.
#[derive(Drop)]
enum Held {
    /// The next item.
    Item(Item),
    /// What the bytes begin with, where the next item isn't known from them.
    Unknown(Opening),
}

/// A reader of the items of a text. Contracts see how many bytes and lines it has passed, the bytes
/// that it holds, which were taken and aren't passed yet, whether it is live, and whether a take has
/// answered `End`, behind which it takes nothing more.
#[derive(Drop)]
pub struct Reader {
    alloc: Global,
    bytes: Vec<u8>,
    position: usize,
    passed_bytes: usize,
    passed_lines: u64,
    live: bool,
    ended: bool,
    next_take: usize,
}

impl Model for Reader {
    ghost use Rattle.std.specs.Prelude.{drop};
    ghost use Rattle.palp_input.specs.Reading.{ReaderState};
    ghost use Rattle.palp_input.specs.ReaderSteps.{IsReader};

    ghost Value = { ReaderState };

    ghost view = { λ r. record {
      bytes = r.passed_bytes;
      lines = r.passed_lines;
      held = drop r.position r.bytes.items;
      live = r.live;
      ended = r.ended;
    } };

    ghost invariant = { λ r. IsReader r.position r.passed_bytes r.passed_lines r.bytes.items r.next_take };
}

impl Reader {
    /// A live reader that has passed nothing and holds nothing. It takes no memory yet.
    pub fn new(alloc: Global) -> Reader
        ensures { result ≡ record { bytes = 0; lines = 0; held = []; live = true; ended = false } }
    {
        Reader {
            alloc,
            bytes: Vec::new(alloc),
            position: 0,
            passed_bytes: 0,
            passed_lines: 0,
            live: true,
            ended: false,
            next_take: FIRST_TAKE,
        }
    }

    /// Whether the reader may be asked for the next item: it answered no error and no end.
    pub fn is_live(&self) -> bool
        ensures { result ≡ self.now.live }
    {
        self.live
    }

    /// The next item of the bytes that the reader holds and those that `src` has left; it is then
    /// passed, up to the place at which it ends. The answer is `None` exactly at the end of the text.
    /// `Text` comes exactly where the next item is faulty, and `TooLong` exactly where the text, with
    /// all bytes passed, has more than 67,108,864 bytes and the next item doesn't end within that
    /// many. `Read` comes only where the source failed, and then no item has its line end in the bytes
    /// held and taken; `NoMemory` comes where the bytes or the item find no memory. After `None`, and
    /// after an item whose last line has no line end, the source has ended. After an error or `None`
    /// the reader isn't live.
    ///
    /// It takes at most 65,536 bytes at a time, and gives an item whose line end is among the bytes
    /// held before it takes on; a fault is told once a line end came and a byte stands behind the
    /// fault. It never takes more than 67,108,865 bytes in all, and no later call takes from the source
    /// once a take has answered `End`; a source that is handed in after that has ended.
    pub fn next_item<S: Source>(&mut self, src: &mut S) -> Result<Option<Item>, NextFault>
        requires live { self.old.live ≡ true }
        requires handed { IsHanded self.old (S.state src.old) }
        ensures { NextMeans result self.old self.new (S.state src.old) (S.state src.new) }
    {
        self.live = false;
        let mut opening = Opening::Blank;
        let mut looked = 0;
        loop {
            match self.look_on(looked, opening)? {
                Held::Item(item) => return Ok(Some(item)),
                Held::Unknown(seen) => opening = seen,
            }
            if self.has_all() {
                drop(opening);
                return self.last_item();
            }
            looked = self.held_len();
            self.take_more(src)?;
        }
    }

    /// What the bytes held tell of the next item, where so many of them were looked at before. An item
    /// that is known is passed.
    fn look_on(&mut self, looked: usize, opening: Opening) -> Result<Held, NextFault>
        requires within { looked ≤ length self.old.held }
        requires seen { Seen (take looked self.old.held) opening }
        ensures { HeldMeans result self.old self.new }
    {
        let rest = &self.bytes[self.position..];
        match look_at(self.alloc, rest, looked, opening)? {
            Look::Known(item, end) if self.passed_bytes + end <= MOST_BYTES => {
                self.pass(end);
                Ok(Held::Item(item))
            }
            Look::Known(_, _) => Err(NextFault::TooLong),
            Look::Faulty(fault) => Err(NextFault::Text(self.placed(fault))),
            Look::Unknown(opening) => Ok(Held::Unknown(opening)),
        }
    }

    /// The number of bytes held.
    fn held_len(&self) -> usize
        ensures { result ≡ length self.now.held }
    {
        self.bytes.len() - self.position
    }

    /// Whether nothing more is taken: the source has ended, or the text is too long.
    fn has_all(&self) -> bool
        ensures { result ≡ self.now.ended || nat_lt most_bytes (self.now.bytes + length self.now.held) }
    {
        self.ended || self.passed_bytes + self.held_len() > MOST_BYTES
    }

    /// Takes once. The bytes that are passed give way to those that are held.
    fn take_more<S: Source>(&mut self, src: &mut S) -> Result<(), NextFault>
        requires unended { self.old.ended ≡ false }
        requires room { self.old.bytes + length self.old.held ≤ most_bytes }
        ensures { TakeMoreMeans result self.old self.new (S.state src.old) (S.state src.new) }
    {
        drop_front(&mut self.bytes, self.position);
        self.position = 0;
        let room = MOST_BYTES + 1 - self.passed_bytes - self.bytes.len();
        let count = take_into(&mut self.bytes, room.min(self.next_take), src)?;
        self.ended = count == 0;
        self.next_take = next_take(count);
        Ok(())
    }

    /// The next item of the bytes held, behind which the source has ended or the text is too long.
    fn last_item(&mut self) -> Result<Option<Item>, NextFault>
        ensures { LastMeans result self.old self.new }
    {
        let rest = &self.bytes[self.position..];
        match first_item(self.alloc, rest)? {
            Found::Given(item, end) if self.passed_bytes + end <= MOST_BYTES => {
                self.pass(end);
                Ok(Some(item))
            }
            Found::Faulty(fault)
                if fault.end <= MOST_BYTES && self.passed_bytes + fault.end <= MOST_BYTES => {
                Err(NextFault::Text(self.placed(fault)))
            }
            Found::Nothing if self.passed_bytes + rest.len() <= MOST_BYTES => Ok(None),
            _ => Err(NextFault::TooLong),
        }
    }

    /// Passes so many bytes, the last of an item, and lives on.
    fn pass(&mut self, count: usize)
        requires held { count ≤ length self.old.held }
        requires most { self.old.bytes + count ≤ most_bytes }
        ensures { self.new ≡ record {
          bytes = self.old.bytes + count;
          lines = self.old.lines + line_feeds (take count self.old.held);
          held = drop count self.old.held;
          live = true;
          ended = self.old.ended;
        } }
    {
        let rest = &self.bytes[self.position..];
        self.passed_lines += line_feeds(&rest[..count]);
        self.passed_bytes += count;
        self.position += count;
        self.live = true;
    }

    /// The fault with its line and column.
    fn placed(&self, fault: ItemFault) -> TextFault
        ensures { result ≡ text_fault self.now.lines self.now.held fault }
    {
        let before = front(&self.bytes[self.position..], fault.at);
        TextFault {
            kind: fault.kind,
            line: self.passed_lines + line_feeds(before) + 1,
            column: column_behind(before),
        }
    }
}

/// Takes once, at most so many bytes, and appends them. No byte comes only where the source has ended.
fn take_into<S: Source>(bytes: &mut Vec<u8>, room: usize, src: &mut S) -> Result<usize, NextFault>
    requires some { 1 ≤ room }
    requires fits { length bytes.old.items + room ≤ most_bytes + 1 }
    ensures { TakeIntoMeans result bytes.old.items bytes.new.items room (S.state src.old) (S.state src.new) }
{
    let held = bytes.len();
    clear_behind(bytes, room)?;
    match src.take(&mut bytes[held..]) {
        Took::Bytes(count) => {
            bytes.truncate(held + count);
            Ok(count)
        }
        Took::End => {
            bytes.truncate(held);
            Ok(0)
        }
        Took::Failed => {
            bytes.truncate(held);
            Err(NextFault::Read)
        }
    }
}

/// Appends so many zeros.
fn clear_behind(bytes: &mut Vec<u8>, count: usize) -> Result<(), NoMemory>
    requires { length bytes.old.items + count < 2 ^ 63 }
    ensures { MatchResult result (λ _. bytes.new.items ≡ bytes.old.items ++ replicate count 0) (λ _. bytes.new.items ≡ bytes.old.items) }
{
    bytes.resize(bytes.len() + count, 0)?;
    Ok(())
}

/// The most bytes of the next take: twice as many as the last one gave, so that few are cleared for a
/// source that gives few.
fn next_take(count: usize) -> usize
    ensures least { LEAST_TAKE ≤ result }
    ensures twice { 2 * count ≤ CHUNK → 2 * count ≤ result }
    ensures most { result ≤ CHUNK }
{
    count.min(CHUNK / 2).max(LEAST_TAKE / 2) * 2
}

/// Takes the first bytes away, as many as told.
fn drop_front(bytes: &mut Vec<u8>, count: usize)
    requires { count ≤ length bytes.old.items }
    ensures { bytes.new.items ≡ drop count bytes.old.items }
{
    if count > 0 {
        let rest = bytes.len() - count;
        bytes.copy_within(count.., 0);
        bytes.truncate(rest);
    }
}

/// The first bytes, as many as told.
fn front(bytes: &[u8], count: usize) -> &[u8]
    ensures { result.now ≡ take count bytes.now }
{
    &bytes[..count.min(bytes.len())]
}

/// The number of line ends among the bytes.
fn line_feeds(bytes: &[u8]) -> u64
    ensures value { result ≡ line_feeds bytes.now }
    ensures most { result ≤ length bytes.now }
{
    bytes.iter().filter(|byte| **byte == b'\n').count() as u64
}

/// The column behind the bytes.
fn column_behind(bytes: &[u8]) -> u64
    ensures { result ≡ column_behind 1 bytes.now }
{
    let mut column = 1;
    for byte in bytes {
        column = if *byte == b'\n' { 1 } else { column + 1 };
    }
    column
}
