//! A worked example.
ghost use Rattle.std.specs.Prelude.{[], ◌∷◌, pos, negsuc};
ghost use Rattle.lattice_theory.specs.Examples.{in_plane, in_space, minus2, minus3};
ghost use Rattle.elimination.specs.Elimination.{IsKernel, ArePivots, IsReduced, IsCombination, AreSeparated};

/// An example, and no work: the vectors that pair to 0 with (1, 2, 3) and (4, 5, 6) are the multiples of (1, -2, 1), both vectors are pivots, and
/// (-2, 4, -2) is such a multiple. The step at (4, 5, 6) makes (1, -2, 1) of (-3, 0, 1), with the pivot (-2, 1, 0). The vector (0, 1) tells
/// (1, 2) from (1, 0), but nothing tells (1, 2) from itself.
pub fn kernel_is_an_example()
    ensures kernel { IsKernel 3 (in_space (pos 1) (pos 2) (pos 3) ∷ in_space (pos 4) (pos 5) (pos 6) ∷ []) (record { own = 2; vector = in_space (pos 1) minus2 (pos 1) } ∷ []) }
    ensures pivots { ArePivots 3 (in_space (pos 1) (pos 2) (pos 3) ∷ in_space (pos 4) (pos 5) (pos 6) ∷ [])
        (in_space (pos 1) (pos 2) (pos 3) ∷ in_space (pos 4) (pos 5) (pos 6) ∷ []) (record { own = 2; vector = in_space (pos 1) minus2 (pos 1) } ∷ []) }
    ensures combination { IsCombination (record { own = 2; vector = in_space (pos 1) minus2 (pos 1) } ∷ []) (in_space minus2 (pos 4) minus2) }
    ensures reduced { IsReduced (record { own = 1; vector = in_space minus2 (pos 1) (pos 0) }) (in_space (pos 4) (pos 5) (pos 6))
        (record { own = 2; vector = in_space minus3 (pos 0) (pos 1) }) (record { own = 2; vector = in_space (pos 1) minus2 (pos 1) }) }
    ensures separated { AreSeparated 2 (in_plane (pos 1) (pos 2) ∷ in_plane (pos 1) (pos 0) ∷ []) }
    ensures together { AreSeparated 2 (in_plane (pos 1) (pos 2) ∷ in_plane (pos 1) (pos 2) ∷ []) → ⊥ }
{}
