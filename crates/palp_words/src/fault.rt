// The first wrong word.
use thiserror::Error;

/// What is wrong with a word.
#[derive(Clone, Copy, Debug, PartialEq, Eq)]
pub enum WordKind {
    /// A word is missing behind the last one.
    Missing,
    /// The first word isn't a command.
    Command,
    /// The word isn't one of the options.
    Flag,
    /// The word isn't one to nine digits where a number has to stand.
    Number,
    /// The number is out of its range.
    Range,
    /// The word stands behind the last one that the command takes.
    Extra,
    /// The word can't stand with those before it: it is the second `-c` word of `nef`, or with it
    /// both of two letters stand that exclude each other, which are `p` and `H` of `nef`, and `n` and
    /// one of `a`, `d` and `D` of `poly`. The word is told with which the second of them stands.
    Conflict,
}

/// The first wrong word from the left. Words are counted from 1, the command being word 1; a
/// missing word has the place behind the last one.
#[derive(Clone, Copy, Debug, PartialEq, Eq, Error)]
#[error("word {index}: {kind:?}")]
pub struct WordFault {
    /// The number of the word.
    pub index: u32,
    /// What is wrong with it.
    pub kind: WordKind,
}
