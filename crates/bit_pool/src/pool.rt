//! Pools of rows.
ghost use Rattle.std.specs.Prelude.{◌≡◌, ◌↔◌, ◌+◌, ◌<◌, ◌≤◌, length, ⊤, Some, IsTrue, IfOk, OnOk, OnErr, MatchResult};
ghost use Rattle.bit_pool.specs.Bits.{HasBit, IsRow, IsSubset, size_of};
ghost use Rattle.bit_pool.specs.Pools.{IsPool, IsOpened, IsStale, IsFirstStale, IsPushed, IsMetInto, IsReserved, IsReset, IsSwapped, OnRow, row_of};
ghost use Rattle.bit_pool.specs.steps.Stored.{IsMetBy};
ghost use Rattle.bit_pool.specs.declared.limits.TheConstants.{MOST_WIDTH, MOST_ROWS, MOST_TURNS};

use crate::bits::{has_bit, is_within, meet_of, size_of_row, word_count};
use crate::generation::Generation;
use crate::{Full, NoMemory, RowFault, RowId, Stale};
use std::alloc::Global;
use std::marker::Model;
use std::mem;

/// A pool of rows, which are sets of numbers below its width. Contracts see the width, the rows of an old and of a young generation with the
/// epoch of each and how many rows each has room for, and how often the pool was turned over.
#[derive(Drop)]
pub struct RowPool {
    width: usize,
    reserved: usize,
    turns: u64,
    old_rows: Generation,
    young_rows: Generation,
}

impl Model for RowPool {
    ghost use Rattle.bit_pool.specs.Pools.{PoolState};
    ghost use Rattle.bit_pool.specs.steps.Stored.{IsStored, pool_of};

    ghost Value = { PoolState };

    ghost view = { λ p. pool_of p.width p.reserved p.turns p.old_rows p.young_rows };

    ghost invariant = { λ p. IsStored p.width p.reserved p.turns p.old_rows p.young_rows };
}

impl RowPool {
    /// A pool of two empty generations, each with room for so many rows, at most 2^24, of a width from 1 to 4,096 bits. `NoMemory` comes where
    /// there is no memory for that room.
    pub fn open(alloc: Global, width: usize, rows: usize) -> Result<RowPool, NoMemory>
        requires some { 1 ≤ width }
        requires most { width ≤ MOST_WIDTH }
        requires few { rows ≤ MOST_ROWS }
        ensures { IfOk result (IsOpened width rows) }
    {
        let words = word_count(width);
        Ok(RowPool {
            width,
            reserved: rows,
            turns: 0,
            old_rows: Generation::open(alloc, 0, words, rows)?,
            young_rows: Generation::open(alloc, 1, words, rows)?,
        })
    }

    /// The width in bits, 1 to 4,096. Every row is a set of numbers below it.
    pub fn width(&self) -> usize
        ensures value { result ≡ self.now.width }
        ensures pool { IsPool self.now }
    {
        self.width
    }

    /// The number of rows of the young generation, at most as many as it has room for.
    pub fn used(&self) -> usize
        ensures value { result ≡ length self.now.young_generation.rows }
        ensures room { result ≤ self.now.young_generation.reserved }
    {
        self.young_rows.len()
    }

    /// How many rows the young generation has room for, at most 2^24.
    pub fn reserved(&self) -> usize
        ensures value { result ≡ self.now.young_generation.reserved }
        ensures most { result ≤ MOST_ROWS }
    {
        self.reserved
    }

    /// How often the pool was turned over.
    pub fn turns(&self) -> u64
        ensures { result ≡ self.now.turns }
    {
        self.turns
    }

    /// The id that the next row of the young generation will have.
    pub fn next_id(&self) -> RowId
        ensures epoch { result.epoch ≡ self.now.young_generation.epoch }
        ensures place { result.place ≡ length self.now.young_generation.rows }
        ensures pool { IsPool self.now }
    {
        RowId {
            epoch: self.young_rows.epoch(),
            place: self.young_rows.len() as u32,
        }
    }

    /// The words of the row that an id names. `Stale` comes exactly where it names none.
    pub fn row(&self, id: RowId) -> Result<&[u64], Stale>
        ensures answer { MatchResult result (λ words. row_of self.now id ≡ Some words.now) (IsStale self.now id) }
        ensures pool { IsPool self.now }
    {
        let place = id.place as usize;
        if id.epoch == self.young_rows.epoch() && place < self.young_rows.len() {
            return Ok(self.young_rows.row(place));
        }
        if id.epoch == self.old_rows.epoch() && place < self.old_rows.len() {
            return Ok(self.old_rows.row(place));
        }
        Err(Stale {
            asked: id,
            old_epoch: self.old_rows.epoch(),
            young_epoch: self.young_rows.epoch(),
        })
    }

    /// Whether a number below the width is in the row that an id names. `Stale` comes exactly where it names none.
    pub fn has(&self, id: RowId, bit: usize) -> Result<bool, Stale>
        requires { bit < self.now.width }
        ensures { MatchResult result (λ yes. OnRow self.now id (λ words. IsTrue yes ↔ HasBit words bit)) (IsStale self.now id) }
    {
        Ok(has_bit(self.row(id)?, bit))
    }

    /// How many numbers are in the row that an id names. `Stale` comes exactly where it names none.
    pub fn count(&self, id: RowId) -> Result<u32, Stale>
        ensures { MatchResult result (λ count. OnRow self.now id (λ words. count ≡ size_of self.now.width words)) (IsStale self.now id) }
    {
        Ok(size_of_row(self.row(id)?))
    }

    /// Whether each number of the row of `a` is in the row of `b`. `Stale` comes exactly where one of the ids names no row; `a` is asked for
    /// first.
    pub fn is_subset(&self, a: RowId, b: RowId) -> Result<bool, Stale>
        ensures { MatchResult result
            (λ yes. OnRow self.now a (λ words. OnRow self.now b (λ others. IsTrue yes ↔ IsSubset words others)))
            (IsFirstStale self.now a b) }
    {
        let words = self.row(a)?;
        let others = self.row(b)?;
        Ok(is_within(words, others))
    }

    /// Adds a row to the young generation: the words of a set of numbers below the width. `Full` comes exactly where the young generation uses
    /// all its room; nothing changes then. It takes no memory.
    pub fn push(&mut self, words: &[u64]) -> Result<RowId, Full>
        requires { IsRow self.old.width words.now }
        ensures { IsPushed self.old self.new words.now result }
    {
        if self.young_rows.len() == self.reserved {
            return Err(Full {
                reserved: self.reserved,
            });
        }
        let id = self.next_id();
        self.young_rows.push(words);
        Ok(id)
    }

    /// Adds the numbers that are in the rows of both ids as a row to the young generation. `Stale` comes exactly where one of the ids names no
    /// row, `a` being asked for first; `Full` comes exactly where both name one and the young generation uses all its room. Nothing changes
    /// then. It takes no memory.
    pub fn meet_into(&mut self, a: RowId, b: RowId) -> Result<RowId, RowFault>
        ensures { IsMetInto self.old self.new a b result }
    {
        let (meet, words) = match self.met(a, b) {
            Ok(met) => met,
            Err(stale) => return Err(RowFault::Stale(stale)),
        };
        match self.push(&meet[..words]) {
            Ok(id) => Ok(id),
            Err(_) => Err(RowFault::Full),
        }
    }

    /// The words of the numbers that are in the rows of both ids, and how many words they are.
    fn met(&self, a: RowId, b: RowId) -> Result<([u64; 64], usize), Stale>
        ensures { MatchResult result (IsMetBy self.now a b) (IsFirstStale self.now a b) }
    {
        let words = self.row(a)?;
        let others = self.row(b)?;
        Ok((meet_of(words, others), words.len()))
    }

    /// Makes room for at least so many rows, at most 2^24, in each generation; all rows stay with their ids. `NoMemory` comes where there is no
    /// memory for that room; nothing changes then.
    pub fn reserve(&mut self, rows: usize) -> Result<(), NoMemory>
        requires { rows ≤ MOST_ROWS }
        ensures { IsReserved self.old self.new rows result }
    {
        if rows > self.reserved {
            self.old_rows.reserve(rows)?;
            self.young_rows.reserve(rows)?;
            self.reserved = rows;
        }
        Ok(())
    }

    /// Gives the rows of the old generation up. The young one becomes old, its rows with their ids, and another young one begins without rows,
    /// under an epoch above those before. The pool was turned over fewer than 2^62 times. It takes no memory.
    pub fn swap_generations(&mut self)
        requires { self.old.turns < MOST_TURNS }
        ensures { IsSwapped self.old self.new }
    {
        let epoch = self.young_rows.epoch() + 1;
        mem::swap(&mut self.old_rows, &mut self.young_rows);
        self.young_rows.restart(epoch);
        self.turns += 1;
    }

    /// Gives all rows up: both generations are empty, under epochs above those before. The pool was turned over fewer than 2^62 times.
    pub fn reset(&mut self)
        requires { self.old.turns < MOST_TURNS }
        ensures { IsReset self.old self.new }
    {
        let epoch = self.young_rows.epoch() + 1;
        self.old_rows.restart(epoch);
        self.young_rows.restart(epoch + 1);
        self.turns += 1;
    }
}
