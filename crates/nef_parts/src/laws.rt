//! What a search gives, as a list.
ghost use Rattle.nef_parts.specs.Laws.{NoPartitionsAreFirst, FirstAndNextPartitionAreFirst, FirstPartitionsAreAll};
ghost use Rattle.nef_parts.specs.Laws.{OnePartitionAt, FewerThanAll, OneNumberOfPartitions};

/// A law, and no work: what a search has given is always the first ones of the list of all nef partitions, and all of them where there is no
/// next one.
pub fn first_partitions_law()
    ensures none { NoPartitionsAreFirst }
    ensures next { FirstAndNextPartitionAreFirst }
    ensures all { FirstPartitionsAreAll }
{}

/// A law, and no work: one nef partition at most has so many before it, fewer than there are, and there is one number of them.
pub fn partitions_are_single()
    ensures place { OnePartitionAt }
    ensures fewer { FewerThanAll }
    ensures number { OneNumberOfPartitions }
{}
