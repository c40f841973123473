//! The facets with more points.
ghost use Rattle.ridge_theory.specs.Laws.{FacetsOfAll, FacetsOfOneMore, FacetsStay, MoreAreSolid, NewFacetsAreNew, NewFacetsDiffer};

/// Points among which there are some that aren't flat aren't flat.
pub fn more_are_solid()
    ensures { MoreAreSolid }
{}

/// A facet that isn't negative at a new point stays a facet with it.
pub fn facets_stay()
    ensures { FacetsStay }
{}

/// The facets with a new point are the old ones that aren't negative at it, and the combinations at it of two that meet in a ridge, one
/// positive and one negative at it.
pub fn facets_of_one_more()
    ensures { FacetsOfOneMore }
{}

/// None of these combinations is a facet already.
pub fn new_facets_are_new()
    ensures { NewFacetsAreNew }
{}

/// Different pairs of facets have different combinations.
pub fn new_facets_differ()
    ensures { NewFacetsDiffer }
{}

/// Where no facet of some of the points is negative at any of the points, the facets are those of all points.
pub fn facets_of_all()
    ensures { FacetsOfAll }
{}
