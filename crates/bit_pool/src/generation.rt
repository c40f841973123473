//! The rows of one epoch.
ghost use Rattle.std.specs.Prelude.{◌≡◌, ◌+◌, ◌*◌, ◌<◌, ◌≤◌, [], ◌∷◌, ◌++◌, length, take, drop, IfOk, OnOk, slice_index_or};
ghost use Rattle.bit_pool.specs.steps.Stored.{IsKept};
ghost use Rattle.bit_pool.specs.declared.limits.TheConstants.{MOST_ROWS};

use crate::NoMemory;
use std::alloc::Global;
use std::marker::Model;

/// The row at a place among rows that are kept word after word.
fn row_within(words: &[u64], row_words: usize, place: usize) -> &[u64]
    requires { place * row_words + row_words ≤ length words.now }
    ensures { result.now ≡ take row_words (drop (place * row_words) words.now) }
{
    let start = place * row_words;
    &words[start..start + row_words]
}

/// Rows of one epoch, each of as many words, which are kept word after word: at most 64 words a row, and at most 2^24 rows. A pool has two
/// generations; tables of rows of bits use one alone.
#[derive(Drop)]
pub struct Generation {
    epoch: u64,
    row_words: usize,
    used: usize,
    words: Vec<u64>,
}

impl Model for Generation {
    ghost use Rattle.std.specs.Prelude.{◌≡◌, ◌*◌, ◌≤◌, length, vec_capacity};
    ghost use Rattle.bit_pool.specs.steps.Stored.{Kept, rows_in};

    ghost Value = { Kept };

    ghost view = { λ g. record {
      epoch = g.epoch;
      row_words = g.row_words;
      rows = rows_in g.row_words g.used g.words.items;
      room = vec_capacity g.words;
    } };

    ghost invariant = { λ g. (length g.words.items ≡ g.used * g.row_words) × (1 ≤ g.row_words) × (g.row_words ≤ 64) };
}

impl Generation {
    /// A generation without rows, with room for so many.
    pub fn open(
        alloc: Global,
        epoch: u64,
        row_words: usize,
        rows: usize,
    ) -> Result<Generation, NoMemory>
        requires some { 1 ≤ row_words }
        requires most { row_words ≤ 64 }
        requires few { rows ≤ MOST_ROWS }
        ensures epoch { IfOk result (λ g. g.epoch ≡ epoch) }
        ensures row_words { IfOk result (λ g. g.row_words ≡ row_words) }
        ensures empty { IfOk result (λ g. g.rows ≡ []) }
        ensures room { IfOk result (λ g. rows * row_words ≤ g.room) }
    {
        Ok(Generation {
            epoch,
            row_words,
            used: 0,
            words: Vec::with_capacity(alloc, rows * row_words)?,
        })
    }

    /// The epoch.
    pub fn epoch(&self) -> u64
        ensures { result ≡ self.now.epoch }
    {
        self.epoch
    }

    /// The number of rows.
    pub fn len(&self) -> usize
        ensures { result ≡ length self.now.rows }
    {
        self.used
    }

    /// The row at a place.
    pub fn row(&self, place: usize) -> &[u64]
        requires { place < length self.now.rows }
        ensures { result.now ≡ slice_index_or self.now.rows place [] }
    {
        row_within(&self.words, self.row_words, place)
    }

    /// One row more, for which there is room.
    pub fn push(&mut self, words: &[u64])
        requires row { length words.now ≡ self.old.row_words }
        requires room { (length self.old.rows + 1) * self.old.row_words ≤ self.old.room }
        requires few { length self.old.rows < MOST_ROWS }
        ensures epoch { self.new.epoch ≡ self.old.epoch }
        ensures row_words { self.new.row_words ≡ self.old.row_words }
        ensures rows { self.new.rows ≡ self.old.rows ++ words.now ∷ [] }
        ensures room { self.old.room ≤ self.new.room }
    {
        match self.words.extend_from_slice(words) {
            Ok(()) => self.used += 1,
            Err(_) => unreachable!(),
        }
    }

    /// Room for so many rows in all.
    pub fn reserve(&mut self, rows: usize) -> Result<(), NoMemory>
        requires few { rows ≤ MOST_ROWS }
        requires more { length self.old.rows ≤ rows }
        ensures kept { IsKept self.old self.new }
        ensures room { OnOk result (rows * self.new.row_words ≤ self.new.room) }
    {
        let more = (rows - self.used) * self.row_words;
        self.words.try_reserve(more)?;
        Ok(())
    }

    /// Gives all rows up and begins another epoch.
    pub fn restart(&mut self, epoch: u64)
        ensures epoch { self.new.epoch ≡ epoch }
        ensures row_words { self.new.row_words ≡ self.old.row_words }
        ensures empty { self.new.rows ≡ [] }
        ensures room { self.old.room ≤ self.new.room }
    {
        self.words.clear();
        self.used = 0;
        self.epoch = epoch;
    }
}
