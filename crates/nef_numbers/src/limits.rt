//! For how many rays and functions tables of the faces of cones are opened. This project's own.
use lattice_core::MOST_VERTICES;
use nef_parts::MOST_PARTS;

/// A cone with at most so many rays, and functions, has the smaller table: its sets have one word each.
pub const FEW: usize = 64;

/// The most rays of a cone: one for each vertex and each part.
pub const MOST_RAYS: usize = MOST_VERTICES * MOST_PARTS;

/// The most functions of a cone: one for each vertex of the dual, and one for each part.
pub const MOST_FUNCTIONS: usize = MOST_VERTICES + MOST_PARTS;
