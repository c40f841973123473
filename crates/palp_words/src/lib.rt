//! The words of the command line: which job they ask for, or which word is the first wrong one
//! from the left, and why. It stands on `thiserror` alone, and takes no memory. Its central
//! theorem: the answer is a function of the words, which is defined word by word through the
//! words before each.
#![tactic(auto)]

mod cws;
mod fault;
mod job;
mod letters;
mod nef;
mod number;
mod poly;
mod reading;
mod sweep;

pub use fault::{WordFault, WordKind};
pub use job::{CwsWords, Job, NefWords, PolyFlags, SweepWords};
pub use reading::read_words;
