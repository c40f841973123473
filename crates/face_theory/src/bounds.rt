//! How long chains of faces are where pairings tell the relation.
ghost use Rattle.face_theory.specs.Laws.{ChainBound, RankBound, RankBoundOfPoints};

/// Where pairings with vectors of length n tell the relation, a chain of faces strictly within a face has at most n of them.
pub fn chain_bound()
    ensures { ChainBound }
{}

/// A rank is at most n where the functions are vectors of length n.
pub fn rank_bound()
    ensures { RankBound }
{}

/// A rank is at most n + 1 where the functions are affine ones on points of dimension n.
pub fn rank_bound_of_points()
    ensures { RankBoundOfPoints }
{}
