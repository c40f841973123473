//! The items of a text: weight systems on one line, and matrices with a header, or the first fault
//! with its line and column. It stands on `palp_io`, whose sources it reads, on `lattice_core` and
//! on `thiserror`. Its central theorem: each call of the reader answers the next item of the
//! grammar, which is defined on the whole text, however the source cuts the text.
#![tactic(auto)]

mod fault;
mod grammar;
mod item;
mod laws;
mod lines;
#[cfg(test)]
mod long_texts;
mod matrices;
mod numerals;
mod openings;
mod pieces;
mod reader;
mod systems;
#[cfg(test)]
mod tests;

pub use fault::{NextFault, TextFault, TextKind};
pub use item::{Item, Matrix};
pub use laws::{calls_law, item_law, reading_law, systems_keep_numbers};
pub use reader::Reader;
