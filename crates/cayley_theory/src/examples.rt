//! A worked example.
ghost use Rattle.std.specs.Prelude.{◌≡◌, ℕ, [], ◌∷◌, pos, true, false};
ghost use Rattle.lattice_theory.specs.Examples.{in_plane, minus1};
ghost use Rattle.nef_theory.specs.Examples.{short_segment, short_normals};
ghost use Rattle.cayley_theory.specs.Cones.{AreConeMembers, AreConeFunctions};
ghost use Rattle.cayley_theory.specs.Counts.{CountsOnFace, CountsOnDualFace};
ghost use Rattle.cayley_theory.specs.Bases.{lifted_all, HasBaseOf, Number, summed};
ghost use Rattle.cayley_theory.specs.Examples.{segment_members, segment_functions, segment_kept, segment_points, no_function, segment_numbers};

/// An example, and no work: of the segment from -1 to 1, with both normals in one part, the cone's members are the ends with 1 behind them, and its
/// functions the normals with 1 behind them and (0, 1). The cone has 3 integer vectors of degree 1, and its face at the first end has one; the dual
/// cone has 3 of degree 1.
pub fn segment_cone_is_an_example()
    ensures members { AreConeMembers 1 short_segment short_normals 1 (0 ∷ 0 ∷ []) segment_members }
    ensures functions { AreConeFunctions 1 short_normals 1 (0 ∷ 0 ∷ []) segment_functions }
    ensures all { CountsOnFace 1 1 segment_members segment_functions (true ∷ true ∷ []) 1 3 }
    ensures face { CountsOnFace 1 1 segment_members segment_functions (true ∷ false ∷ []) 1 1 }
    ensures dual { CountsOnDualFace 1 1 segment_members (false ∷ false ∷ []) 1 3 }
{}

/// An example, and no work: with the functions of this cone the point 0 has the base 0, and the ends have the base 1. The part is free, so the vectors of
/// degree 1 are 1 + 2, which are the 3 above.
pub fn segment_bases_are_an_example()
    ensures kept { lifted_all 1 segment_kept ≡ segment_functions }
    ensures numbers { (l : ℕ) → Number (HasBaseOf 1 segment_kept no_function l) segment_points (segment_numbers l) }
    ensures vectors { summed 1 segment_numbers 1 ≡ 3 }
{}
