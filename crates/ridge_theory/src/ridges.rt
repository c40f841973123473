//! Two facets that meet in a ridge.
ghost use Rattle.ridge_theory.specs.Laws.{OppositeFacetsCombine, RidgesByFacets, RidgesGiveFacets};

/// A facet that is positive at a point and one that is negative there have a combination that vanishes at it.
pub fn opposite_facets_combine()
    ensures { OppositeFacetsCombine }
{}

/// This combination is a facet with the point exactly where the two meet in a ridge.
pub fn ridges_give_facets()
    ensures { RidgesGiveFacets }
{}

/// Two facets meet in a ridge exactly where no third one vanishes at each of the points at which both vanish.
pub fn ridges_by_facets()
    ensures { RidgesByFacets }
{}
