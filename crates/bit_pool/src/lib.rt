//! A pool of rows of bits: sets of numbers below a width, which are pushed, met and asked of without memory. It stands on no other crate.
//! Its central theorem: an id names its row as long as its generation lives, and never another row.
#![tactic(auto)]

mod bits;
mod faults;
mod generation;
mod laws;
mod limits;
mod pool;

pub use bits::is_within;
pub use faults::{Full, NoMemory, RowFault, RowId, Stale};
pub use generation::Generation;
pub use laws::{rows_stay, width_stays};
pub use limits::{MOST_ROWS, MOST_TURNS, MOST_WIDTH};
pub use pool::RowPool;

#[cfg(test)]
mod tests;
