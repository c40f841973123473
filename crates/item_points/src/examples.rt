//! Worked examples.
ghost use Rattle.std.specs.Prelude.{◌≡◌, None, Some, [], ◌∷◌, pos};
ghost use Rattle.lattice_core.specs.declared.faults.LimitName.TheVariants.{Weights, Degree};
ghost use Rattle.lattice_core.specs.declared.faults.Refusal.TheVariants.{Limit};
ghost use Rattle.item_points.specs.Matrices.{points_of};
ghost use Rattle.item_points.specs.WeightLines.{numbers_refusal};

/// An example, and no work: the points of a square matrix are its lines, and those of a matrix with more columns than lines its columns.
pub fn matrix_points_are_an_example()
    ensures square { points_of 2 2 (pos 1 ∷ pos 2 ∷ pos 3 ∷ pos 4 ∷ []) ≡ (pos 1 ∷ pos 2 ∷ []) ∷ (pos 3 ∷ pos 4 ∷ []) ∷ [] }
    ensures wide { points_of 2 3 (pos 1 ∷ pos 2 ∷ pos 3 ∷ pos 4 ∷ pos 5 ∷ pos 6 ∷ [])
        ≡ (pos 1 ∷ pos 4 ∷ []) ∷ (pos 2 ∷ pos 5 ∷ []) ∷ (pos 3 ∷ pos 6 ∷ []) ∷ [] }
{}

/// An example, and no work: nothing is refused of the degree 3 and three weights 1; the first of two degrees above 32,767 is told; and with 13
/// weights their number is told, whatever the degree.
pub fn numbers_refusal_is_an_example()
    ensures within { numbers_refusal (record { degree = 3; weights = 1 ∷ 1 ∷ 1 ∷ [] } ∷ []) ≡ None }
    ensures degree { numbers_refusal (record { degree = 32768; weights = 1 ∷ 32767 ∷ [] } ∷ record { degree = 40000; weights = 40000 ∷ 0 ∷ [] } ∷ [])
        ≡ Some (Limit Degree 32768) }
    ensures weights { numbers_refusal (record { degree = 40000; weights = 1 ∷ 1 ∷ 1 ∷ 1 ∷ 1 ∷ 1 ∷ 1 ∷ 1 ∷ 1 ∷ 1 ∷ 1 ∷ 1 ∷ 39988 ∷ [] } ∷ [])
        ≡ Some (Limit Weights 13) }
{}
