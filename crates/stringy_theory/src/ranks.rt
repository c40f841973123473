//! What an order along which ranks rise gives.
ghost use Rattle.stringy_theory.specs.Laws.{RanksSuffice, RankedTableSuffices};

/// An order along which ranks rise is all that the other laws suppose.
pub fn ranks_suffice()
    ensures { RanksSuffice }
{}

/// Faces of a relation with their ranks have such an order.
pub fn ranked_table_suffices()
    ensures { RankedTableSuffices }
{}
