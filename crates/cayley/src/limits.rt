//! The limits on cones. This project's own.

/// The most that the dimension of a polytope and the number of parts may be, together.
pub const MOST_RANK: u32 = 7;

/// The most lattice points in the largest dilate that is scanned.
pub const MOST_SCANNED: u64 = 4_194_304;
