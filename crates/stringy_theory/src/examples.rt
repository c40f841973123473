//! Worked examples.
ghost use Rattle.std.specs.Prelude.{◌≡◌, pos, negsuc};
ghost use Rattle.stringy_theory.specs.Eulerian.{g, g_dual};
ghost use Rattle.stringy_theory.specs.CountedFaces.{stringy_number, hodge_number, euler_number};
ghost use Rattle.stringy_theory.specs.Examples.{octahedron_order, segment, triangle, tetrahedron, simplex};

/// An example, and no work: from the empty face of the octahedron to the whole, G is 1 + 4t and G' is 1 + 2t.
pub fn octahedron_is_an_example()
    ensures g_constant { g octahedron_order 0 63 0 ≡ pos 1 }
    ensures g_linear { g octahedron_order 0 63 1 ≡ pos 4 }
    ensures dual_linear { g_dual octahedron_order 0 63 1 ≡ pos 2 }
    ensures dual_square { g_dual octahedron_order 0 63 2 ≡ pos 0 }
{}

/// An example, and no work: the segment from -1 to 1, whose hypersurface is two points.
pub fn segment_is_an_example()
    ensures points { stringy_number segment 1 0 0 ≡ pos 2 }
    ensures v { stringy_number segment 1 0 1 ≡ pos 0 }
    ensures u { stringy_number segment 1 1 0 ≡ pos 0 }
    ensures below { stringy_number segment 0 0 0 ≡ pos 0 }
    ensures euler { euler_number segment 1 0 ≡ pos 2 }
{}

/// An example, and no work: a triangle with edges of length 3, whose hypersurface is a curve of genus 1.
pub fn triangle_is_an_example()
    ensures start { stringy_number triangle 1 0 0 ≡ pos 1 }
    ensures v { stringy_number triangle 1 0 1 ≡ negsuc 0 }
    ensures u { stringy_number triangle 1 1 0 ≡ negsuc 0 }
    ensures end { stringy_number triangle 1 1 1 ≡ pos 1 }
    ensures hodge { hodge_number triangle 1 0 1 ≡ pos 1 }
    ensures euler { euler_number triangle 1 1 ≡ pos 0 }
{}

/// An example, and no work: a tetrahedron with edges of length 4, whose hypersurface is a surface with h(1,1) = 20.
pub fn tetrahedron_is_an_example()
    ensures { hodge_number tetrahedron 1 1 1 ≡ pos 20 }
{}

/// An example, and no work: the simplex of dimension 4 with edges of length 5, whose hypersurface is the quintic.
pub fn quintic_is_an_example()
    ensures divisors { hodge_number simplex 1 1 1 ≡ pos 1 }
    ensures deformations { hodge_number simplex 1 1 2 ≡ pos 101 }
{}
