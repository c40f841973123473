//! How h* is made of numbers of lattice points.
ghost use Rattle.stringy_theory.specs.Laws.{HStarByDifferences, DifferencesAreBounded, CountsAreBounded};

/// The alternating sum of binomial coefficients times numbers of points is what is left after k differences.
pub fn h_star_by_differences()
    ensures { HStarByDifferences }
{}

/// After k differences of numbers of at most m, each number is at most 2^k m in size, and half of that where none is negative.
pub fn differences_are_bounded()
    ensures any { DifferencesAreBounded }
    ensures counts { CountsAreBounded }
{}
