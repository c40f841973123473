//! A worked example.
ghost use Rattle.std.specs.Prelude.{◌≡◌, pos, negsuc};
ghost use Rattle.polynomial_theory.specs.Series.{product, power, part_below_half, times_at_ratio, times_at_product, power_of_minus_u};
ghost use Rattle.polynomial_theory.specs.Examples.{one_and_two_t, three_less_t};

/// An example, and no work: (1 + 2t)(3 - t) is 3 + 5t - 2t^2, (1 + 2t)^3 has 12 t^2, of which the part below 3/2 has nothing, and
/// (1 + 2v/u)(3 - uv)(-u) is -3u - 6v + u^2 v + 2 u v^2.
pub fn products_are_an_example()
    ensures constant { product one_and_two_t three_less_t 0 ≡ pos 3 }
    ensures linear { product one_and_two_t three_less_t 1 ≡ pos 5 }
    ensures square { product one_and_two_t three_less_t 2 ≡ negsuc 1 }
    ensures cube { power one_and_two_t 3 2 ≡ pos 12 }
    ensures kept { part_below_half 3 (power one_and_two_t 3) 1 ≡ pos 6 }
    ensures cut { part_below_half 3 (power one_and_two_t 3) 2 ≡ pos 0 }
    ensures u { times_at_ratio one_and_two_t (times_at_product three_less_t (power_of_minus_u 1)) (pos 1) 0 ≡ negsuc 2 }
    ensures v { times_at_ratio one_and_two_t (times_at_product three_less_t (power_of_minus_u 1)) (pos 0) 1 ≡ negsuc 5 }
    ensures u_squared_v { times_at_ratio one_and_two_t (times_at_product three_less_t (power_of_minus_u 1)) (pos 2) 1 ≡ pos 1 }
    ensures u_v_squared { times_at_ratio one_and_two_t (times_at_product three_less_t (power_of_minus_u 1)) (pos 1) 2 ≡ pos 2 }
{}
