//! What the facets say of the hull.
ghost use Rattle.facet_theory.specs.Laws.{HullByFacets, HullInBox, FacetsBound, SomePositiveConstant};

/// A point is in the hull exactly where each facet is nonnegative at it.
pub fn hull_by_facets()
    ensures { HullByFacets }
{}

/// The hull lies in the box of the points, also where they are flat.
pub fn hull_in_box()
    ensures { HullInBox }
{}

/// No direction but 0 is nonnegative on all normals of facets.
pub fn facets_bound()
    ensures { FacetsBound }
{}

/// Some facet has a positive constant.
pub fn some_positive_constant()
    ensures { SomePositiveConstant }
{}
