//! The polynomials G and G' of intervals.
ghost use Rattle.stringy_theory.specs.Laws.{GExists, GIsSingle, GDualIsSingle, GHasSmallDegree, GByGaps};

/// The equations of G and those of G' have one solution each, and G has a degree below half of the difference of ranks, or is 1.
pub fn g_is_determined()
    ensures exists { GExists }
    ensures single { GIsSingle }
    ensures single_dual { GDualIsSingle }
    ensures degree { GHasSmallDegree }
{}

/// The sum that G is made of, gap by gap: sums of G first, and then one power of t - 1 for each gap.
pub fn g_by_gaps()
    ensures { GByGaps }
{}
