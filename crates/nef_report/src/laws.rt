//! What is said of an item is said once.
ghost use Rattle.nef_report.specs.Laws.{OneListingStep};

/// A law, and no work: what `nef` says of an item next is one thing. So an item has one list of pieces, or of pieces and a refusal.
pub fn listings_are_single()
    ensures { OneListingStep }
{}
