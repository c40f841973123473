//! Worked examples: what the definitions say of vectors, a square, flat points, a segment, the octahedron and a triangle.
ghost use Rattle.std.specs.Prelude.{◌≡◌, [], ◌∷◌, pos};
ghost use Rattle.lattice_theory.specs.Vector.{IsPrimitive};
ghost use Rattle.lattice_theory.specs.Order.{LexLess, Ascends};
ghost use Rattle.lattice_theory.specs.Size.{size, absolute_sum};
ghost use Rattle.lattice_theory.specs.Points.{IsDilatePoint};
ghost use Rattle.lattice_theory.specs.Hull.{InHull, IsVertex};
ghost use Rattle.lattice_theory.specs.Facet.{IsFacet, IsFlatFunction};
ghost use Rattle.lattice_theory.specs.Examples.{on_line, in_plane, in_space, function, minus1, minus2, minus3, minus4, minus5, square, diagonal, segment, octahedron, triangle};

/// An example, and no work: the absolute sum of a vector is 3, and the size of a triangle 5; (2, 3) is primitive and (2, 4) isn't; (-1, 5) comes
/// before (0, -1), and the list of the two ascends in this order alone.
pub fn vectors_are_an_example()
    ensures sum { absolute_sum (in_plane minus2 (pos 1)) ≡ 3 }
    ensures size { size 2 triangle ≡ 5 }
    ensures primitive { IsPrimitive (in_plane (pos 2) (pos 3)) }
    ensures not_primitive { IsPrimitive (in_plane (pos 2) (pos 4)) → ⊥ }
    ensures before { LexLess (in_plane minus1 (pos 5)) (in_plane (pos 0) minus1) }
    ensures ascends { Ascends LexLess (in_plane minus1 (pos 5) ∷ in_plane (pos 0) minus1 ∷ []) }
    ensures descends { Ascends LexLess (in_plane (pos 0) minus1 ∷ in_plane minus1 (pos 5) ∷ []) → ⊥ }
{}

/// An example, and no work: a square with its center and one corner twice. The center lies in the hull and is no vertex, the corner is one,
/// `x + 1` is a facet, and `x + y + 2` is none.
pub fn square_is_an_example()
    ensures center_inside { InHull 2 square (in_plane (pos 0) (pos 0)) }
    ensures center_no_vertex { IsVertex 2 square (in_plane (pos 0) (pos 0)) → ⊥ }
    ensures corner_vertex { IsVertex 2 square (in_plane (pos 1) (pos 1)) }
    ensures facet { IsFacet 2 square (function (in_plane (pos 1) (pos 0)) (pos 1)) }
    ensures no_facet { IsFacet 2 square (function (in_plane (pos 1) (pos 1)) (pos 2)) → ⊥ }
{}

/// An example, and no work: three points of the diagonal of the plane are flat, and `-x + y` is their flat function.
pub fn diagonal_is_an_example()
    ensures { IsFlatFunction 2 diagonal (function (in_plane minus1 (pos 1)) (pos 0)) }
{}

/// An example, and no work: the two facets of the segment from -2 to 5. Its second dilate has the point -4, and not -5.
pub fn segment_is_an_example()
    ensures lower { IsFacet 1 segment (function (on_line (pos 1)) (pos 2)) }
    ensures upper { IsFacet 1 segment (function (on_line minus1) (pos 5)) }
    ensures inside { IsDilatePoint 1 segment 2 (on_line minus4) }
    ensures outside { IsDilatePoint 1 segment 2 (on_line minus5) → ⊥ }
{}

/// An example, and no work: a facet of the octahedron.
pub fn octahedron_is_an_example()
    ensures { IsFacet 3 octahedron (function (in_space (pos 1) (pos 1) (pos 1)) (pos 1)) }
{}

/// An example, and no work: the three facets of a triangle.
pub fn triangle_is_an_example()
    ensures lower { IsFacet 2 triangle (function (in_plane (pos 0) (pos 1)) (pos 1)) }
    ensures left { IsFacet 2 triangle (function (in_plane (pos 1) (pos 0)) (pos 1)) }
    ensures slanted { IsFacet 2 triangle (function (in_plane minus3 minus4) (pos 5)) }
{}
