//! That the heights that are found are bases, and that words tell on which sets of vectors they are 0.
ghost use Rattle.base_counts.specs.Laws.{TopsAreBases, SetsWithinTight};

/// The least heights over all vectors are the base of the point, where each part has a vector.
pub fn tops_are_bases()
    ensures { TopsAreBases }
{}

/// The vectors of a set pair to 0 with a point and heights exactly where the set is within that of all vectors that do.
pub fn sets_within_tight()
    ensures { SetsWithinTight }
{}
