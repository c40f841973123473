//! Ranks and coranks, and how they are found.
ghost use Rattle.face_theory.specs.Laws.{RankIsUnique, CorankIsUnique, RankStep, CorankStep, RankByMeets, TableHasRanks, TableHasCoranks, RankRises, RankExists, CorankExists};

/// A face has one rank.
pub fn rank_is_unique()
    ensures { RankIsUnique }
{}

/// A face has one corank.
pub fn corank_is_unique()
    ensures { CorankIsUnique }
{}

/// Counting over ranked faces, among which each face strictly within a face stands, gives its rank.
pub fn rank_step()
    ensures { RankStep }
{}

/// The same from above gives its corank.
pub fn corank_step()
    ensures { CorankStep }
{}

/// The ranks of what a face has in common with single rows of functions tell its rank.
pub fn rank_by_meets()
    ensures { RankByMeets }
{}

/// A table of all faces by rising numbers of members, ranked face by face, has the ranks.
pub fn table_has_ranks()
    ensures { TableHasRanks }
{}

/// A table of all faces by falling numbers of members, ranked face by face from above, has the coranks.
pub fn table_has_coranks()
    ensures { TableHasCoranks }
{}

/// A face strictly within another has a smaller rank, and fewer members.
pub fn rank_rises()
    ensures { RankRises }
{}

/// Each face has a rank.
pub fn rank_exists()
    ensures { RankExists }
{}

/// Each face has a corank.
pub fn corank_exists()
    ensures { CorankExists }
{}
