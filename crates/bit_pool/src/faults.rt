//! The ids of rows, and what can go wrong.

use std::alloc::{AllocError, AllocFailed};

/// There was no memory for the rows.
#[derive(Clone, Copy, Debug, PartialEq, Eq)]
pub struct NoMemory;

impl From<AllocError> for NoMemory {
    fn from(_: AllocError) -> NoMemory {
        NoMemory
    }
}

impl<T: Drop> From<AllocFailed<T>> for NoMemory {
    fn from(_: AllocFailed<T>) -> NoMemory {
        NoMemory
    }
}

/// The name of a row: the epoch of its generation, and its place there, counted from 0.
#[derive(Clone, Copy, Debug, PartialEq, Eq)]
pub struct RowId {
    /// The epoch of the generation in which the row was pushed.
    pub epoch: u64,
    /// The place of the row in that generation.
    pub place: u32,
}

/// The id that was asked for names no row of the pool.
#[derive(Clone, Copy, Debug, PartialEq, Eq)]
pub struct Stale {
    /// The id.
    pub asked: RowId,
    /// The epoch of the pool's old generation.
    pub old_epoch: u64,
    /// The epoch of its young generation.
    pub young_epoch: u64,
}

/// The young generation uses all the rows that it has room for.
#[derive(Clone, Copy, Debug, PartialEq, Eq)]
pub struct Full {
    /// How many rows the young generation has room for.
    pub reserved: usize,
}

/// Why two rows weren't met.
#[derive(Clone, Copy, Debug, PartialEq, Eq)]
pub enum RowFault {
    /// One of the ids names no row.
    Stale(Stale),
    /// There is no room for one more row.
    Full,
}
