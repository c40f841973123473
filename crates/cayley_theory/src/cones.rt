//! What holds of the members, the functions and the faces of Cayley cones.
ghost use Rattle.cayley_theory.specs.Laws.{PartPointsAreSingle, ConeLengths, PairingsAreNonnegative, ConeRankBound, ConesAreSingle, CountsAreSingle, DualCountsAreSingle, CountsByBases};

/// Where the function (m, 1) of a vertex m is a facet of the normals, a part has at most one point at the vertex.
pub fn part_points_are_single()
    ensures { PartPointsAreSingle }
{}

/// Members and functions have as many entries as the dimension and the number of parts, together.
pub fn cone_lengths()
    ensures { ConeLengths }
{}

/// Each function of a nef partition's cone is nonnegative on each member.
pub fn pairings_are_nonnegative()
    ensures { PairingsAreNonnegative }
{}

/// A rank of a cone's faces is at most the dimension and the number of parts, together.
pub fn cone_rank_bound()
    ensures { ConeRankBound }
{}

/// A nef partition has one list of members and one of functions.
pub fn cones_are_single()
    ensures { ConesAreSingle }
{}

/// A face has one number of integer vectors of a degree.
pub fn counts_are_single()
    ensures { CountsAreSingle }
{}

/// So has its dual face.
pub fn dual_counts_are_single()
    ensures { DualCountsAreSingle }
{}

/// The integer vectors of a degree in a cone, or on a face, are counted by points alone: over a point the lowest heights are its base, and above it
/// the parts that are free may rise. So the numbers of points by the degree of their base, summed as often as parts are free, tell them.
pub fn counts_by_bases()
    ensures { CountsByBases }
{}
