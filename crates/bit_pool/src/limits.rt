//! The limits of a pool. This project's own.

/// The largest width of a pool in bits.
pub const MOST_WIDTH: usize = 4_096;

/// The most rows of a generation: 2^24.
pub const MOST_ROWS: usize = 16_777_216;

/// How often a pool may be turned over: 2^62 times.
pub const MOST_TURNS: u64 = 4_611_686_018_427_387_904;
