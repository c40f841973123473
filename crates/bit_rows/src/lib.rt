//! Rows of bits: sets of numbers below 128, each held in one number of 128 bits, which take no memory. It stands on no other crate.
//! Its central theorem: each operation on bits is the one on sets that it is named after.
#![tactic(auto)]

mod row;

pub use row::{BitRow, MOST_INDICES};
