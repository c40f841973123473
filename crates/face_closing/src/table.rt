//! A table of rows in which a row is found by its words.
ghost use Rattle.std.specs.Prelude.{◌≡◌, ◌≤◌, ◌<◌, [], ◌∷◌, ◌++◌, length, Contains, IfOk, MatchOption, slice_index_or};
ghost use Rattle.std.specs.Bool.{MatchBool};
ghost use Rattle.face_closing.specs.Tables.{IsRowTable, IsAdded, HasNoRoom};
ghost use Rattle.face_closing.specs.declared.limits.TheConstants.{MOST_FACES};

use crate::MOST_FACES;
use crate::words::bucket;
use bit_pool::{Generation, NoMemory};
use std::alloc::Global;
use std::marker::Model;

/// How many buckets there are.
const BUCKETS: usize = 4_096;

/// A table of at most 4,096 rows, each of as many words, in the order in which they were pushed. All its memory is taken when it is opened.
#[derive(Drop)]
pub struct RowTable {
    rows: Generation,
    heads: Vec<u16>,
    nexts: Vec<u16>,
}

impl Model for RowTable {
    ghost use Rattle.std.specs.Prelude.{vec_capacity};
    ghost use Rattle.face_closing.specs.Tables.{RowsState};
    ghost use Rattle.face_closing.specs.steps.Chains.{IsKeptTable};

    ghost Value = { RowsState };

    ghost view = { λ t. record { row_words = t.rows.row_words; rows = t.rows.rows } };

    ghost invariant = { λ t. IsKeptTable t.rows.row_words t.rows.rows t.rows.room t.heads.items t.nexts.items (vec_capacity t.nexts) };
}

impl RowTable {
    /// An empty table of rows of so many words, 1 to 64. `NoMemory` comes where there is no memory for 4,096 rows.
    pub fn open(alloc: Global, row_words: usize) -> Result<RowTable, NoMemory>
        requires some { 1 ≤ row_words }
        requires most { row_words ≤ 64 }
        ensures row_words { IfOk result (λ t. t.row_words ≡ row_words) }
        ensures empty { IfOk result (λ t. t.rows ≡ []) }
    {
        let mut heads = Vec::with_capacity(alloc, BUCKETS)?;
        heads.resize(BUCKETS, 0)?;
        Ok(RowTable {
            rows: Generation::open(alloc, 0, row_words, MOST_FACES)?,
            heads,
            nexts: Vec::with_capacity(alloc, MOST_FACES)?,
        })
    }

    /// How many rows there are, at most 4,096.
    pub fn len(&self) -> usize
        ensures value { result ≡ length self.now.rows }
        ensures table { IsRowTable self.now }
    {
        self.rows.len()
    }

    /// The row at a place.
    #[inline]
    pub fn row(&self, place: usize) -> &[u64]
        requires { place < length self.now.rows }
        ensures value { result.now ≡ slice_index_or self.now.rows place [] }
        ensures words { length result.now ≡ self.now.row_words }
        ensures table { IsRowTable self.now }
    {
        self.rows.row(place)
    }

    /// The place of a row that has these words, or `None` where there is no such row.
    #[inline]
    pub fn find(&self, words: &[u64]) -> Option<usize>
        ensures { MatchOption result (Contains self.now.rows words.now → ⊥)
            (λ i. (i < length self.now.rows) × (slice_index_or self.now.rows i [] ≡ words.now)) }
    {
        let mut link = self.heads[bucket(words)] as usize;
        while link != 0 {
            let place = link - 1;
            if self.rows.row(place) == words {
                return Some(place);
            }
            link = self.nexts[place] as usize;
        }
        None
    }

    /// One row more, for which there is room.
    pub fn push(&mut self, words: &[u64])
        requires row { length words.now ≡ self.old.row_words }
        requires room { length self.old.rows < MOST_FACES }
        ensures row_words { self.new.row_words ≡ self.old.row_words }
        ensures rows { self.new.rows ≡ self.old.rows ++ words.now ∷ [] }
    {
        let bucket = bucket(words);
        if self.nexts.push(self.heads[bucket]).is_err() {
            unreachable!();
        }
        self.rows.push(words);
        self.heads[bucket] = self.rows.len() as u16;
    }

    /// A row that may stand there already: it is added where it doesn't. False where it isn't there and there is no room for it.
    pub fn add(&mut self, words: &[u64]) -> bool
        requires { length words.now ≡ self.old.row_words }
        ensures row_words { self.new.row_words ≡ self.old.row_words }
        ensures rows { MatchBool result (IsAdded self.old.rows words.now self.new.rows) (HasNoRoom self.old.rows words.now) }
    {
        if self.find(words).is_some() {
            return true;
        }
        if self.len() == MOST_FACES {
            return false;
        }
        self.push(words);
        true
    }

    /// Takes all rows away.
    pub fn clear(&mut self)
        ensures row_words { self.new.row_words ≡ self.old.row_words }
        ensures empty { self.new.rows ≡ [] }
    {
        self.rows.restart(0);
        self.nexts.clear();
        self.heads.fill(0);
    }
}
