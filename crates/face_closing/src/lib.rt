//! The faces of a relation "tight" from the rows of its functions, as rows of 64-bit words: a table of rows in which a row is found by its words,
//! its closing under what rows have in common, the order of its sets, and their ranks. It stands on `face_theory`, whose faces its contracts cite, and on `bit_pool`, which keeps the rows.
//!
//! Its central theorem: the closed table has exactly the faces, or there are more than 4,096 (`close`).
#![tactic(auto)]

mod closing;
mod limits;
mod order;
mod ranks;
mod table;
mod words;

pub use closing::close;
pub use limits::MOST_FACES;
pub use order::sort_into;
pub use ranks::rank_into;
pub use table::RowTable;
pub use words::{compare, meet_into};

#[cfg(test)]
mod tests;
