//! The limit of a table. This project's own.

/// The most rows of a table, so the most faces that a table of faces may have.
pub const MOST_FACES: usize = 4_096;
