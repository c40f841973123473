//! Relations "tight" between members and functions, told by rows of bits in a pool. It stands on `face_theory`, of whose relations its contracts
//! speak, on `bit_pool` for the rows, and on `lattice_core` for points and functions.
//!
//! Its central theorem: the rows of an incidence tell the relation of which it was made, a point being tight on a function where its value is 0
//! (`Incidence::of`); and the pool keeps them as the calls ask, whatever is called on it later (`held_stays`).
#![tactic(auto)]

mod incidence;
mod laws;
mod table;
mod values;
mod words;

pub use incidence::Incidence;
pub use laws::{held_stays, made_is_held, rows_tell, told_is_single, told_rows_agree};
pub use values::{width_for, zeros_into};
pub use words::put_bit;

#[cfg(test)]
mod tests;
