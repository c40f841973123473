//! How large ranks are, and how many faces have one.
ghost use Rattle.face_poset.specs.Laws.{TopRankBound, TableCountsFaces, TableHasFewFaces, FaceCountsAreSingle};

/// In a table of the faces of points of dimension n, with affine functions, every rank is at most n + 1.
pub fn top_rank_bound()
    ensures { TopRankBound }
{}

/// A table of a relation has as many faces of each rank as the relation, and where it has at most 4,096 the relation hasn't more.
pub fn table_counts_faces()
    ensures counts { TableCountsFaces }
    ensures few { TableHasFewFaces }
{}

/// A relation has one number of faces of each rank.
pub fn face_counts_are_single()
    ensures { FaceCountsAreSingle }
{}
