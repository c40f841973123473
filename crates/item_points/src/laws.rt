//! What is said of an item's points is said once, and the points of a weight line are lattice points of their hull and miss none.

ghost use Rattle.item_points.specs.Laws.{OneListOfPoints, OnePointsRefusal, PointsOrRefusal, PointsAreItemPoints, WeightPointsAreLatticePoints, WeightPointsAreFew};

/// A law, and no work: an item has at most one list of points and at most one refusal, and not both. Its points are at least one, of one
/// dimension from 1 to 6, and within the size limit.
pub fn item_points_are_single()
    ensures points { OneListOfPoints }
    ensures refusal { OnePointsRefusal }
    ensures apart { PointsOrRefusal }
    ensures premises { PointsAreItemPoints }
{}

/// A law, and no work: the points of a weight line are all lattice points of their hull, in lexicographic order, and they are at most 16,384.
/// Each exponent is an affine function of a point's coordinates in the frame, with integer coefficients and nonnegative at the points. So at a
/// lattice point of the hull, too, the exponents are nonnegative integers: it is the point of an exponent vector.
pub fn weight_points_are_lattice_points()
    ensures all { WeightPointsAreLatticePoints }
    ensures few { WeightPointsAreFew }
{}
