//! The theorem on facets, and what tells facets apart.
ghost use Rattle.facet_theory.specs.Laws.{FacetsGenerate, FacetsDiffer, FacetByPoints, FacetsAreListed};

/// Each function that is nonnegative on the points is, up to a positive multiple, a sum of facets.
pub fn facets_generate()
    ensures { FacetsGenerate }
{}

/// Two facets are equal where the second is 0 at each point at which the first is.
pub fn facets_differ()
    ensures { FacetsDiffer }
{}

/// Each facet is fixed by n of the points on it: every function that is 0 on these is a multiple of it.
pub fn facet_by_points()
    ensures { FacetByPoints }
{}

/// The facets are finitely many, so there is the list of them, in order and without repetition.
pub fn facets_are_listed()
    ensures { FacetsAreListed }
{}
