//! Worked examples.
ghost use Rattle.std.specs.Prelude.{pos, negsuc, [], ◌∷◌};
ghost use Rattle.lattice_theory.specs.Examples.{on_line, in_plane, segment, minus1};
ghost use Rattle.nef_theory.specs.Nef.{IsGrowthList, IsPartPoint, IsNefPartition};
ghost use Rattle.duality_theory.specs.Reflexive.{IsReflexive};
ghost use Rattle.nef_theory.specs.Agreement.{IsDead};
ghost use Rattle.nef_theory.specs.Examples.{short_segment, short_normals, surface, surface_normals};

/// An example, and no work: 0 1 is a growth list, and 1 0 isn't. It is a nef partition of the two normals of the segment from -1 to 1: at the
/// end -1 the points of the parts are -1 and 0. The segment from -2 to 5 isn't reflexive.
pub fn segment_parts_are_an_example()
    ensures growth { IsGrowthList 2 (0 ∷ 1 ∷ []) }
    ensures no_growth { IsGrowthList 2 (1 ∷ 0 ∷ []) → ⊥ }
    ensures nef { IsNefPartition 1 short_segment short_normals 2 (0 ∷ 1 ∷ []) }
    ensures isnt_reflexive { IsReflexive 1 segment → ⊥ }
{}

/// An example, and no work: of the four normals of a polygon the second is the sum of the first and the third. The second one alone isn't a part
/// of a nef partition: at the corner (-1, -1) its point would be (0, -1), which is negative on the third. The beginning 0 1 0 is dead for
/// the lattice points nearby.
pub fn surface_parts_are_an_example()
    ensures alone { IsNefPartition 2 surface surface_normals 2 (0 ∷ 1 ∷ 0 ∷ 0 ∷ []) → ⊥ }
    ensures dead { IsDead surface surface_normals (in_plane (pos 0) minus1 ∷ in_plane (pos 0) (pos 0) ∷ []) 2 (0 ∷ 1 ∷ 0 ∷ []) }
    ensures with_both { IsPartPoint 2 surface_normals (0 ∷ 1 ∷ 1 ∷ 0 ∷ []) (in_plane minus1 minus1) 1 (in_plane (pos 0) minus1) }
{}
