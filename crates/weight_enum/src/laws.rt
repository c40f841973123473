//! What a search gives, as a list.
ghost use Rattle.weight_enum.specs.Laws.{NoSystemsAreFirst, FirstAndNextSystemAreFirst, FirstSystemsAreAll};

/// A law, and no work: what a search has given is always the first systems of its range, and all of them where there is no next one.
pub fn first_systems_law()
    ensures none { NoSystemsAreFirst }
    ensures next { FirstAndNextSystemAreFirst }
    ensures all { FirstSystemsAreAll }
{}
