//! The sides of a pair.

/// A side of a pair: the polytope, or its dual.
#[derive(Clone, Copy, Debug, PartialEq, Eq)]
pub enum Side {
    /// The polytope.
    M,
    /// Its dual.
    N,
}
