//! What the facets say of the vertices, and the vertices of the facets.
ghost use Rattle.facet_theory.specs.Laws.{VerticesByFacets, LeastAtVertex, FacetsOfVertices, VerticesAreSolid, SomeVertex, VerticesAreSmall, HullOfVertices, VerticesOfCorners};

/// A point of the list is a vertex exactly where no other point lies on all the facets on which it lies.
pub fn vertices_by_facets()
    ensures { VerticesByFacets }
{}

/// Each function has its least value on the points at a vertex.
pub fn least_at_vertex()
    ensures { LeastAtVertex }
{}

/// The vertices have the facets of the points.
pub fn facets_of_vertices()
    ensures { FacetsOfVertices }
{}

/// The vertices aren't flat, and have the points' dimension.
pub fn vertices_are_solid()
    ensures { VerticesAreSolid }
{}

/// There is a vertex.
pub fn some_vertex()
    ensures { SomeVertex }
{}

/// The vertices' size is at most that of the points, also where these are flat.
pub fn vertices_are_small()
    ensures { VerticesAreSmall }
{}

/// The vertices have the hull of the points.
pub fn hull_of_vertices()
    ensures { HullOfVertices }
{}

/// Points have the vertices of those of them that have their facets.
pub fn vertices_of_corners()
    ensures { VerticesOfCorners }
{}
