//! What a text says is said once; and what reflexive polytopes print, and their duals.

ghost use Rattle.palp_engine.specs.Laws.{OnePolytope, OneRefusal, PolytopeOrRefusal, OnePiece, OneItemRefusal, PieceOrRefusal, PieceOrNone, NoneOrRefusal};
ghost use Rattle.palp_engine.specs.Laws.{OneListOfEntries, OneList, OneReport, FrontsAreFronts, EmptyFront, OneEndedReport, EndedReportsAreFronts};
ghost use Rattle.palp_engine.specs.Laws.{OnesTellReflexive, WayBack};

/// A law, and no work: points have at most one list of lattice points, vertices and facets and, if there is a point, at most one refusal, and
/// not both; so letters ask for at most one piece of an item, or for none, and it has at most one refusal, and no two of these. A job
/// reports on one list of entries of a text, and says of an entry one list of pieces, which ends in one way. So words and a text have at
/// most one report, which ends with one outcome; and what is told as a front of their report is one, and nothing where the report is empty.
/// What is to be reported where the source fails is one, too, and a front of the report of the bytes that passed. What `run` gives is fixed
/// by the definitions.
pub fn answers_are_single()
    ensures polytope { OnePolytope }
    ensures refusal { OneRefusal }
    ensures apart { PolytopeOrRefusal }
    ensures piece { OnePiece }
    ensures item_refusal { OneItemRefusal }
    ensures item_apart { PieceOrRefusal }
    ensures none_apart { PieceOrNone }
    ensures none_refusal { NoneOrRefusal }
    ensures entries { OneListOfEntries }
    ensures pieces { OneList }
    ensures report { OneReport }
    ensures front { FrontsAreFronts }
    ensures empty { EmptyFront }
    ensures ended { OneEndedReport }
    ensures ended_front { EndedReportsAreFronts }
{}

/// A law, and no work: the dual leads back. Where two items have the two sides of a pair for their polytopes, and the same numbers in front of
/// their lines, as two matrices have, and each has a piece, the letters print of the first one what the same letters with `D` print of the other.
/// It says nothing of how a printed block is read.
pub fn dual_leads_back()
    ensures { WayBack }
{}

/// A law, and no work: a polytope is reflexive exactly where the constants of all its facets are 1, by which its block of facets is chosen.
pub fn ones_tell_reflexive()
    ensures { OnesTellReflexive }
{}
