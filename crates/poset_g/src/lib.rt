//! The polynomials G and G' of the intervals of a table of faces, and the sums B of their products.
//!
//! It stands on `face_poset` for tables of faces, on `small_poly` for polynomials, and on the definitions and laws of `stringy_theory`, which
//! speak of any order along which ranks rise.
//!
//! Its central theorem: the table has G and G' of every interval of the faces, or names the first coefficient that is too large, exactly where
//! there is one (`GTable::of`).
#![tactic(auto)]

mod faults;
mod fill;
mod laws;
mod places;
mod sums;
mod table;

pub use faults::{GFault, MOST_COEFFICIENT};
pub use laws::ranks_rise;
pub use table::GTable;

#[cfg(test)]
mod tests;
