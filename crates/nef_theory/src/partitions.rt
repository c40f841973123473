//! What nef partitions are, by lattice points, and all of them as a list.
ghost use Rattle.nef_theory.specs.Laws.{PointsByNormals, NefByAgreement, AgreementSplits, DeadBeginnings, NefWalk};

/// The lattice points of a reflexive polytope are the integer vectors whose pairing with each facet's normal is at least -1.
pub fn points_by_normals()
    ensures { PointsByNormals }
{}

/// The nef partitions are the lists with which points agree, one for each vertex and part.
pub fn nef_by_agreement()
    ensures { NefByAgreement }
{}

/// Where the pairings of a point are at least -1, it agrees exactly where it stays low, which doesn't depend on part numbers, and agrees inside.
pub fn agreement_splits()
    ensures { AgreementSplits }
{}

/// No nef partition has a dead beginning.
pub fn dead_beginnings()
    ensures { DeadBeginnings }
{}

/// The walk of a nef guide lists all nef partitions, each once, in lexicographic order.
pub fn nef_walk()
    ensures { NefWalk }
{}
