//! What is printed: the lines and blocks of a report, and the notes. It stands on `lattice_core` for points, functions, weight systems and
//! refusals, on `palp_words` and `palp_input` for the faults that notes tell and for items, on `batyrev` for Hodge numbers, and on the kit's
//! `arrayvec` and `itoa`.
//! Its central theorem: each call appends exactly the text that its layout fixes, or, where there is no memory, leaves the page as it was.
#![tactic(auto)]

mod blocks;
mod examples;
mod line;
mod lists;
mod notes;
mod page;
mod partitions;
mod rows;
#[cfg(test)]
mod tests;
mod titles;

pub use examples::layouts_are_an_example;
pub use notes::{Note, note_line};
pub use page::Page;
pub use titles::{CountTitle, Title};
