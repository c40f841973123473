//! Worked examples.
ghost use Rattle.std.specs.Prelude.{◌≡◌, ◌*◌, ◌^◌, ◌<◌, ◌≤◌, [], ◌∷◌, pos};
ghost use Rattle.lattice_theory.specs.Examples.{in_plane, function, minus1, minus2};
ghost use Rattle.normal_bounds.specs.Bounds.{EntriesWithin, IsFixedBy, safe_size};

/// An example, and no work: the points (2, 0) and (-1, 1) fix the function x + 3y - 2, whose normal has entries of at most 3, and not of at most 2.
pub fn two_points_are_an_example()
    ensures fixed { IsFixedBy 2 (in_plane (pos 2) (pos 0) ∷ in_plane minus1 (pos 1) ∷ []) (function (in_plane (pos 1) (pos 3)) minus2) }
    ensures within { EntriesWithin 3 (in_plane (pos 1) (pos 3)) }
    ensures above { EntriesWithin 2 (in_plane (pos 1) (pos 3)) → ⊥ }
{}

/// An example, and no work: points with 4 coordinates are safe up to size 100,000, and there is no safe size without coordinates. At that size an
/// entry after three pivots, the most that `entries_fit` allows, is below 2^63, and one pivot more would go beyond it.
pub fn safe_sizes_are_an_example()
    ensures four { safe_size 4 ≡ 100_000 }
    ensures nothing { safe_size 0 ≡ 0 }
    ensures line { safe_size 1 ≡ 1_073_741_824 }
    ensures plane { (2 * safe_size 2) ^ 1 < 2 ^ 63 }
    ensures fits { (2 * safe_size 4) ^ 3 < 2 ^ 63 }
    ensures breaks { 2 ^ 63 ≤ (2 * safe_size 4) ^ 4 }
{}
