//! The dual of reflexive points: its facets, vertices and lattice points.
ghost use Rattle.duality_theory.specs.Laws.{FacetsOfDual, DualIsReflexive, VerticesOfDual, PointsOfDual};

/// The facets of the normals are exactly the functions (v, 1) of the vertices v.
pub fn facets_of_dual()
    ensures { FacetsOfDual }
{}

/// The normals are reflexive.
pub fn dual_is_reflexive()
    ensures { DualIsReflexive }
{}

/// Each normal is a vertex of the normals.
pub fn vertices_of_dual()
    ensures { VerticesOfDual }
{}

/// The lattice points of the normals' hull are the integer vectors whose pairing with each vertex is at least -1.
pub fn points_of_dual()
    ensures { PointsOfDual }
{}
