//! How large tails are.
ghost use Rattle.weight_tails.specs.Laws.{TailsAreSmall};

/// A law, and no work: the absolute values of a tail's entries sum to at most the degree and the number of weights, and a tail has one entry fewer
/// than there are weights.
pub fn tails_are_small()
    ensures { TailsAreSmall }
{}
