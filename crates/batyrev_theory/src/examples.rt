//! Worked examples.
ghost use Rattle.std.specs.Prelude.{◌≡◌, pos};
ghost use Rattle.batyrev_theory.specs.Tables.{outer_of, inner_of, product_of, rank_sum, corank_sum, divisors_by, deformations_by};
ghost use Rattle.lattice_theory.specs.Examples.{octahedron};
ghost use Rattle.face_theory.specs.Examples.{octants};
ghost use Rattle.batyrev_theory.specs.Examples.{octahedron_points, cube_points, octahedron_faces, tetrahedron, tetrahedron_facets, tetrahedron_points, tetrahedron_dual_points, tetrahedron_faces};

/// An example, and no work: a tetrahedron with 12 points, whose dual has 12, too. Two points are inside facets of the dual, two inside facets,
/// and the products over the edges are 8 in all: so the Picard number is 12 - 4 - 2 + 8, which is 14, and the correction is 8.
pub fn tetrahedron_numbers_are_an_example()
    ensures in_dual_facets { rank_sum 1 (outer_of tetrahedron tetrahedron_dual_points) tetrahedron_faces ≡ 2 }
    ensures in_facets { corank_sum 1 (inner_of tetrahedron_facets tetrahedron_points) tetrahedron_faces ≡ 2 }
    ensures cor { rank_sum 2 (product_of tetrahedron tetrahedron_facets tetrahedron_points tetrahedron_dual_points) tetrahedron_faces ≡ 8 }
    ensures pic { divisors_by 3 tetrahedron tetrahedron_facets tetrahedron_points tetrahedron_dual_points tetrahedron_faces ≡ pos 14 }
    ensures deformations { deformations_by 3 tetrahedron tetrahedron_facets tetrahedron_points tetrahedron_dual_points tetrahedron_faces ≡ pos 14 }
{}

/// An example, and no work: the octahedron with 7 points, whose dual is the cube with 27. A point is inside each of the cube's six sides, and none is
/// inside a side or an edge of the octahedron: so the Picard number is 27 - 4 - 6, the correction is 0, and with both exchanged it is 7 - 4.
pub fn octahedron_numbers_are_an_example()
    ensures in_dual_facets { rank_sum 1 (outer_of octahedron cube_points) octahedron_faces ≡ 6 }
    ensures in_facets { corank_sum 1 (inner_of octants octahedron_points) octahedron_faces ≡ 0 }
    ensures cor { rank_sum 2 (product_of octahedron octants octahedron_points cube_points) octahedron_faces ≡ 0 }
    ensures pic { divisors_by 3 octahedron octants octahedron_points cube_points octahedron_faces ≡ pos 17 }
    ensures deformations { deformations_by 3 octahedron octants octahedron_points cube_points octahedron_faces ≡ pos 3 }
{}
