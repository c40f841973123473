//! Which powers of u and v occur, and how large the numbers are.
ghost use Rattle.stringy_theory.specs.Laws.{NoNegativePower, NoLargePower, STildeIsSmall, NumeratorIsSmall};

/// Where degrees are small, neither the numerator nor B has a negative power of u.
pub fn no_negative_power()
    ensures { NoNegativePower }
{}

/// Where degrees are small on both sides, the numerator has no power of u or v above the rank of the top.
pub fn no_large_power()
    ensures { NoLargePower }
{}

/// Where coefficients of h* and G are small, those of S~ are at most 2^54 in size, and those of the numerator at most 2^120.
pub fn numbers_are_small()
    ensures s_tilde { STildeIsSmall }
    ensures numerator { NumeratorIsSmall }
{}
