//! Worked examples.
ghost use Rattle.duality_theory.specs.Reflexive.{IsReflexive};
ghost use Rattle.duality_theory.specs.Lists.{ReflexiveLists, AreDualPoints};
ghost use Rattle.duality_theory.specs.Examples.{large_triangle, triangle_facets, triangle_dual, diamond};

/// An example, and no work: the triangle with the corners (-1, -1), (-1, 2) and (2, -1) is reflexive; its dual has four points, the three normals
/// of its facets and the origin.
pub fn triangle_duals_are_an_example()
    ensures lists { ReflexiveLists 2 large_triangle large_triangle triangle_facets }
    ensures dual_points { AreDualPoints 2 large_triangle triangle_dual }
{}

/// An example, and no work: a square whose facets all have the constant 2 isn't reflexive.
pub fn equal_constants_are_an_example()
    ensures { IsReflexive 2 diamond → ⊥ }
{}
