//! The law by which the vectors that a walk gave, kept in a list, are all exponent vectors, and the law on their entries.

ghost use Rattle.weight_points.specs.Laws.{NoneAreFirst, FirstAndNextAreFirst, FirstAreAll, ExponentsAreSmall};

/// A law, and no work: no vectors are the first 0 exponent vectors of well formed systems; the first ones and the next one are the first
/// ones, with one more; and the first ones, where there are no more, are the list of all. So a caller that keeps what `next_into` gives has
/// the list of all once the answer is false.
pub fn given_vectors_are_all()
    ensures none { NoneAreFirst }
    ensures next { FirstAndNextAreFirst }
    ensures all { FirstAreAll }
{}

/// A law, and no work: each entry of an exponent vector of well formed systems within the limits is from 0 to `MOST_DEGREE`.
pub fn exponents_are_small()
    ensures { ExponentsAreSmall }
{}
