//! How large ranks are, what a search for nef partitions gives, and how vectors in cones are counted by the points of dilates.
ghost use Rattle.cayley.specs.Laws.{ConeTopRankBound, FoundArePartitions, FunctionsHaveAllParts, MembersHaveAllParts};
ghost use Rattle.cayley.specs.Laws.{PairsAreCounted, DualPairsAreCounted, FacesAreCounted, DualFacesAreCounted};

/// In a table of the faces of a cone every rank is at most the dimension and the number of parts, together.
pub fn cone_top_rank_bound()
    ensures { ConeTopRankBound }
{}

/// What a search for the nef partitions of a pair gives is a nef partition of it, with the places of its points: it has a cone.
pub fn found_are_partitions()
    ensures { FoundArePartitions }
{}

/// Each part of a cone has a function and a member, so that each point has a base over these.
pub fn parts_have_vectors()
    ensures functions { FunctionsHaveAllParts }
    ensures members { MembersHaveAllParts }
{}

/// The vectors of a degree in a cone, those of them that are 0 on a set of functions, and those of a face, are counted by the points of a dilate of the
/// polytope, by their bases over the functions.
pub fn faces_are_counted()
    ensures pairs { PairsAreCounted }
    ensures faces { FacesAreCounted }
{}

/// Those of the dual cone, and of a dual face, are counted by the points of a dilate of the dual polytope, by their bases over the members.
pub fn dual_faces_are_counted()
    ensures pairs { DualPairsAreCounted }
    ensures faces { DualFacesAreCounted }
{}
