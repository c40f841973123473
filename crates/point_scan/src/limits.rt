//! The limits of a count. This project's own.

/// The most times that a polytope is dilated.
pub const MOST_DILATE: u32 = 7;

/// The largest limit that a count may be given: 2^40.
pub const MOST_COUNT: u64 = 1_099_511_627_776;
