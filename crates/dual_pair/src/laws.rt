//! That a polytope is told by its vertices.
ghost use Rattle.dual_pair.specs.Laws.{PolytopeOfVertices, PolytopesAreSingle, PairsAreSingle, ExchangedPairs, NoLimitOnTheWayBack};
ghost use Rattle.dual_pair.specs.Laws.{OnePolytopeRefusal, PolytopeOrRefusal, OneDualRefusal, DualOrRefusal};

/// The polytope of points is that of its vertices, and has the points' dimension.
pub fn polytope_of_vertices()
    ensures { PolytopeOfVertices }
{}

/// Points have at most one polytope.
pub fn polytopes_are_single()
    ensures { PolytopesAreSingle }
{}

/// A polytope has at most one pair.
pub fn pairs_are_single()
    ensures { PairsAreSingle }
{}

/// The sides of a pair, exchanged, are a pair: the dual of the dual is the polytope.
pub fn exchanged_pairs()
    ensures { ExchangedPairs }
{}

/// The dual of a pair has a dual: no limit is exceeded on the way back.
pub fn no_limit_on_the_way_back()
    ensures { NoLimitOnTheWayBack }
{}

/// Points are refused for no two causes, and not where they have a polytope.
pub fn polytope_refusals_are_single()
    ensures refusal { OnePolytopeRefusal }
    ensures apart { PolytopeOrRefusal }
{}

/// A dual is refused for no two causes, and not where there is one.
pub fn dual_refusals_are_single()
    ensures refusal { OneDualRefusal }
    ensures apart { DualOrRefusal }
{}
