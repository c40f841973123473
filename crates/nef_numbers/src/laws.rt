//! What the numbers of a nef partition are told by.
ghost use Rattle.nef_numbers.specs.Laws.{FoundHaveParts, NumbersAreSingle, OneNumbersRefusal, NumbersOrRefusal};

/// What a search for nef partitions gives is one of as many parts as are sought.
pub fn found_have_parts()
    ensures { FoundHaveParts }
{}

/// A nef partition has one list of numbers that are told, or one refusal, and not both.
pub fn numbers_are_single()
    ensures numbers { NumbersAreSingle }
    ensures refusals { OneNumbersRefusal }
    ensures apart { NumbersOrRefusal }
{}
