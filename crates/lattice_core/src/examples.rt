//! A worked example.
ghost use Rattle.std.specs.Prelude.{pos};
ghost use Rattle.lattice_theory.specs.Examples.{in_plane, function, minus1};
ghost use Rattle.lattice_theory.specs.Combinations.{IsPositiveCombination, IsCombinationAt};

/// An example, and no work: the combination of x + 1 and -x - y + 1 at the point (2, 2), where they are 3 and -3, is their sum -y + 2. It isn't
/// their difference 2x + y.
pub fn combination_is_an_example()
    ensures sum { IsCombinationAt (function (in_plane (pos 1) (pos 0)) (pos 1)) (function (in_plane minus1 minus1) (pos 1)) (in_plane (pos 2) (pos 2))
        (function (in_plane (pos 0) minus1) (pos 2)) }
    ensures difference { IsPositiveCombination (function (in_plane (pos 1) (pos 0)) (pos 1)) (function (in_plane minus1 minus1) (pos 1))
        (function (in_plane (pos 2) (pos 1)) (pos 0)) → ⊥ }
{}
