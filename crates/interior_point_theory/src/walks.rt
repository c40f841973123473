//! The systems of a degree, and of a range, as lists.
ghost use Rattle.interior_point_theory.specs.Laws.{WeightWalk, SystemsByDegrees, SystemsAreSingle};

/// The walk of a weight guide lists all interior-point systems of the degree, each once, in order.
pub fn weight_walk()
    ensures { WeightWalk }
{}

/// The lists of the degrees, one behind another, are the list of the range.
pub fn systems_by_degrees()
    ensures { SystemsByDegrees }
{}

/// A range has one list of its systems.
pub fn systems_are_single()
    ensures { SystemsAreSingle }
{}
