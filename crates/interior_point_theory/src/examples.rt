//! Worked examples.
ghost use Rattle.std.specs.Prelude.{pos, [], ◌∷◌};
ghost use Rattle.lattice_theory.specs.Examples.{in_plane};
ghost use Rattle.interior_point_theory.specs.Interior.{HasInteriorPoint, IsInteriorPointSystem, AreSystemsOfRange, SystemLess, system_of};
ghost use Rattle.interior_point_theory.specs.Around.{HasTails};
ghost use Rattle.interior_point_theory.specs.Beginnings.{MayFollow};
ghost use Rattle.interior_point_theory.specs.Certificates.{IsRefuter, IsSurrounded};
ghost use Rattle.interior_point_theory.specs.Examples.{three_ones, two_ones, two_tails, around_origin, beside_origin};

/// An example, and no work: 1 1 1 with the degree 3 is an interior-point system. 1 1 3 with the degree 5 has no interior point: the third
/// exponent is never above 1. 2 2 2 with the degree 6 is no system, since 2 divides all weights. The degree stands before the weights in the
/// order.
pub fn systems_are_an_example()
    ensures ones { IsInteriorPointSystem three_ones }
    ensures outside { HasInteriorPoint (system_of 5 (1 ∷ 1 ∷ 3 ∷ [])) → ⊥ }
    ensures doubled { IsInteriorPointSystem (system_of 6 (2 ∷ 2 ∷ 2 ∷ [])) → ⊥ }
    ensures degree_first { SystemLess (system_of 5 (1 ∷ 2 ∷ 2 ∷ [])) (system_of 6 (1 ∷ 1 ∷ 4 ∷ [])) }
{}

/// An example, and no work: with two weights and a degree from 1 to 9 there is one system, 1 1. Its exponent vectors are (2, 0), (1, 1) and
/// (0, 2), so its tails are -1, 0 and 1.
pub fn two_weights_are_an_example()
    ensures range { AreSystemsOfRange 1 1 9 (two_ones ∷ []) }
    ensures tails { HasTails 1 two_ones two_tails }
{}

/// An example, and no work: in the degree 6 two weights from 2 on may follow 1, and in the degree 3 three from 1 on may begin. In the degree 5
/// 3 can't follow 1 1, since twice 3 is above the degree.
pub fn beginnings_are_an_example()
    ensures follows { MayFollow 6 (1 ∷ []) 2 2 }
    ensures begins { MayFollow 3 [] 1 3 }
    ensures is_cut { MayFollow 5 (1 ∷ 1 ∷ []) 3 1 → ⊥ }
{}

/// An example, and no work: (-1, -1) twice, (2, -1) and (-1, 2) are surrounded, since they and one each of the last two have the sum 0, and these
/// two have an inverse up to the divisor 3. The function x is nonnegative on (0, -1), (0, 2) and (1, 0).
pub fn certificates_are_an_example()
    ensures confirmed { IsSurrounded 2 around_origin }
    ensures refuted { IsRefuter 2 beside_origin (in_plane (pos 1) (pos 0)) }
{}
