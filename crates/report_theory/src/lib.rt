//! The report of a list of items: a job says of each item what comes next, one step after another, and reports, their fronts and their first
//! refusals are folded from that. It knows nothing of what the items are, and stands on `palp_io` for what a sink was given. Its central
//! theorem: where what comes next is one thing, items have one report, and what is told as a front of it is one. The law states it for
//! items that tell their pieces; the lemmas in proofs/Reports.antt hold for any.
#![tactic(auto)]

ghost use Rattle.std.specs.Prelude.{[], ◌∷◌, None, codes};
ghost use Rattle.report_theory.specs.Report.{ArePieces, IsListReport, IsListFront, Ends, stop_at};
ghost use Rattle.report_theory.specs.Told.{ToldSays, silent, plain, refused_late, refused_between};
ghost use Rattle.report_theory.specs.Laws.{OneListOfPieces, OneReportOfItems, WholeOrRefused, FirstItemFirst, FrontsOfItemsAreFronts, EmptyFrontOfItems, FewerItems};

/// A law, and no work: an item has one list of pieces, and items have one report with one first refusal, which begins with the pieces of the
/// first item; no item is both whole and refused. What is told as a front of a report stands at its front, an empty report has no front but
/// nothing, and the report of fewer items is a front of the report of more. It is stated for items that tell their pieces; the lemmas in
/// proofs/Reports.antt hold for any.
pub fn reports_are_single()
    ensures pieces { OneListOfPieces }
    ensures report { OneReportOfItems }
    ensures apart { WholeOrRefused }
    ensures first { FirstItemFirst }
    ensures front { FrontsOfItemsAreFronts }
    ensures empty { EmptyFrontOfItems }
    ensures fewer { FewerItems }
{}

/// An example, and no work: an item that prints nothing, and then one that is refused behind two pieces. The report ends with these, and tells
/// the second item; what stands behind it isn't reported.
pub fn refused_item_is_an_example()
    ensures pieces { ArePieces ToldSays 0 refused_late (codes "ab" ∷ codes "cd" ∷ []) (Ends 7) }
    ensures report { IsListReport ToldSays 1 0 (silent ∷ refused_late ∷ plain ∷ []) (codes "ab" ∷ codes "cd" ∷ []) (stop_at 2 7) }
    ensures front { IsListFront ToldSays 0 (silent ∷ refused_late ∷ plain ∷ []) (codes "ab" ∷ codes "c" ∷ []) }
{}

/// An example, and no work: an item that is refused behind a piece, and another one, whose report continues. The first refusal is told.
pub fn continued_report_is_an_example()
    ensures report { IsListReport ToldSays 1 0 (refused_between ∷ plain ∷ refused_between ∷ []) (codes "limit" ∷ codes "c" ∷ codes "limit" ∷ []) (stop_at 1 9) }
    ensures front { IsListFront ToldSays 0 (refused_between ∷ plain ∷ []) (codes "limit" ∷ codes "c" ∷ []) }
{}

/// An example, and no work: items that print nothing, and no items, have an empty report.
pub fn empty_report_is_an_example()
    ensures items { IsListReport ToldSays 1 0 (silent ∷ silent ∷ []) [] None }
    ensures no_items { IsListReport ToldSays 1 0 [] [] None }
{}
