//! The limit on counts. This project's own.

/// The most vectors of one degree that are counted.
pub const MOST_PAIRS: u32 = 2_097_152;
