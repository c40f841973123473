//! The normals of the facets of points that aren't flat.
ghost use Rattle.duality_theory.specs.Laws.{NormalsAreSolid, NormalsSurround};

/// The normals of the facets have the points' dimension and aren't flat.
pub fn normals_are_solid()
    ensures { NormalsAreSolid }
{}

/// No direction but 0 is nonnegative on all normals.
pub fn normals_surround()
    ensures { NormalsSurround }
{}
