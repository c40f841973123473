// The items of a text.
use lattice_core::WeightSystem;

/// A matrix with its header. Its dimension is the smaller number of the header, and its count of
/// points the larger. Where there are at least as many lines as columns the points are the rows,
/// otherwise the columns.
#[derive(Debug, Drop, PartialEq, Eq)]
pub struct Matrix {
    /// The number of lines, the first number of the header.
    pub lines: u64,
    /// The number of columns, the second number of the header.
    pub columns: u64,
    /// The entries, row by row.
    pub entries: Vec<i64>,
}

/// An item of a text.
#[derive(Debug, Drop, PartialEq, Eq)]
pub enum Item {
    /// The weight systems of a line: at least one, each with as many weights, whose sum is the
    /// degree; no weight is 0 at the same place in all of them.
    Weights(Vec<WeightSystem>),
    /// A matrix.
    Points(Matrix),
}
