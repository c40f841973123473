//! The limits on points that are counted, and kept. This project's own.

/// The most points that are counted: 2^22.
pub const MOST_COUNTED: u32 = 4_194_304;

/// The most points that are kept to be counted again: 2^18.
pub(crate) const MOST_KEPT: usize = 262_144;
