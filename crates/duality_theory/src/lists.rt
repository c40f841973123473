//! The lists of reflexive points and of their dual, in order.
ghost use Rattle.duality_theory.specs.Laws.{ListsOfDual, PointListOfDual, DualOfDual};

/// The normals of the facets, in order, are all vertices of the dual, and the functions (v, 1) of the vertices v are all its facets.
pub fn lists_of_dual()
    ensures { ListsOfDual }
{}

/// The list of the lattice points of the normals is that of the points of the dual polytope.
pub fn point_list_of_dual()
    ensures { PointListOfDual }
{}

/// The dual of the dual has the vertices, the facets and the lattice points that there were at first.
pub fn dual_of_dual()
    ensures { DualOfDual }
{}
