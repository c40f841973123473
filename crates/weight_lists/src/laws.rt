//! What holds of ranges and of what is said of them.
ghost use Rattle.weight_lists.specs.Laws.{RangesAreListed, RangesAreFew, OneListOfEntries, OneCwsStep, OneSweepStep};

/// A law, and no work: a range has the list of its interior-point systems, which are fewer than 2^61.
pub fn ranges_are_listed()
    ensures listed { RangesAreListed }
    ensures few { RangesAreFew }
{}

/// A law, and no work: a range has one list of entries, and what `cws` or `sweep` says of an entry is one thing. So it has one report.
pub fn lists_are_single()
    ensures entries { OneListOfEntries }
    ensures cws { OneCwsStep }
    ensures sweep { OneSweepStep }
{}
