//! Absolute sums of points, of differences, and of pairings.
ghost use Rattle.normal_bounds.specs.Laws.{PairingBound, PointAbsoluteSum, DifferenceAbsoluteSum};

/// A pairing is at most the bound of the one vector's entries times the other vector's absolute sum.
pub fn pairing_bound()
    ensures { PairingBound }
{}

/// No point of a list has a larger absolute sum than the list's size.
pub fn point_absolute_sum()
    ensures { PointAbsoluteSum }
{}

/// A difference of two vectors has at most the sum of both absolute sums.
pub fn difference_absolute_sum()
    ensures { DifferenceAbsoluteSum }
{}
