//! What is said of an item's polytope is said once.
ghost use Rattle.item_polytopes.specs.Laws.{OnePolytope, OnePolytopeRefusal, PolytopeOrRefusal, OneKind, OneKindRefusal, KindOrRefusal};
ghost use Rattle.item_polytopes.specs.Laws.{WeightLinesHaveFewPoints};

/// A law, and no work: an item has at most one polytope and at most one refusal, and not both.
pub fn item_polytopes_are_single()
    ensures polytope { OnePolytope }
    ensures refusal { OnePolytopeRefusal }
    ensures apart { PolytopeOrRefusal }
{}

/// A law, and no work: an item has at most one of a pair, a polytope that isn't reflexive, and a refusal, and that at most once.
pub fn item_kinds_are_single()
    ensures kind { OneKind }
    ensures refusal { OneKindRefusal }
    ensures apart { KindOrRefusal }
{}

/// A law, and no work: the polytope of a weight line has few lattice points. They are the points of its exponent vectors.
pub fn weight_lines_have_few_points()
    ensures { WeightLinesHaveFewPoints }
{}
