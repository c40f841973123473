//! How large facets are.

ghost use Rattle.hull.specs.Laws.{FacetsBounded};

/// Each facet of points with n coordinates that aren't flat has a normal with entries of at most (2S)^(n-1), and a constant of at most
/// (2S)^(n-1) S, where S is the points' size.
pub fn facets_bounded()
    ensures { FacetsBounded }
{}
