//! What the numbers of a table's faces give.
ghost use Rattle.poset_g.specs.Laws.{RanksRise};

/// Along the order of a table's faces ranks rise.
pub fn ranks_rise()
    ensures { RanksRise }
{}
