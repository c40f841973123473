//! The largest sizes of points with 1 to 6 coordinates for which the laws promise numbers that fit. This project's own.

/// The largest size of points with one coordinate: 2^30.
pub const MOST_SIZE_1: u32 = 1_073_741_824;

/// The largest size of points with two coordinates: 2^30.
pub const MOST_SIZE_2: u32 = 1_073_741_824;

/// The largest size of points with three coordinates: 2^24.
pub const MOST_SIZE_3: u32 = 16_777_216;

/// The largest size of points with four coordinates.
pub const MOST_SIZE_4: u32 = 100_000;

/// The largest size of points with five coordinates.
pub const MOST_SIZE_5: u32 = 8_000;

/// The largest size of points with six coordinates: 2^10.
pub const MOST_SIZE_6: u32 = 1_024;
