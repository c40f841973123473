//! Points in the interior of a face, and of its dual.
ghost use Rattle.batyrev_theory.specs.Laws.{InteriorByList, DualInteriorByList, InteriorCountIsSingle, DualInteriorCountIsSingle};

/// The lattice points in the interior of a face are those whose set of tight facets is the dual face; counted in the list of all.
pub fn interior_by_list()
    ensures { InteriorByList }
{}

/// The points in the interior of the dual of a face are those whose set of tight vertices is the face; counted in the list of all.
pub fn dual_interior_by_list()
    ensures { DualInteriorByList }
{}

/// A face has one number of lattice points in its interior.
pub fn interior_count_is_single()
    ensures { InteriorCountIsSingle }
{}

/// A face has one number of points in the interior of its dual.
pub fn dual_interior_count_is_single()
    ensures { DualInteriorCountIsSingle }
{}
