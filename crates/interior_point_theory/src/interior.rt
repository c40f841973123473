//! What an interior point is, by facets; and the systems of weights 1.
ghost use Rattle.interior_point_theory.specs.Laws.{AroundByFunctions, InteriorByTails, OnesAreSystem, OnesAlone};

/// Points are around the origin exactly where of the linear functions only 0 is nonnegative on them.
pub fn around_by_functions()
    ensures { AroundByFunctions }
{}

/// (1, .., 1) is in the interior exactly where the points of the exponent vectors, without their first coordinate, are around the origin.
pub fn interior_by_tails()
    ensures { InteriorByTails }
{}

/// Any number of weights 1, with their number as the degree, is a system.
pub fn ones_are_system()
    ensures { OnesAreSystem }
{}

/// No other system has a degree that isn't above the number of its weights.
pub fn ones_alone()
    ensures { OnesAlone }
{}
