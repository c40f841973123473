//! A worked example.
ghost use Rattle.std.specs.Prelude.{[], ◌∷◌, pos};
ghost use Rattle.lattice_theory.specs.Examples.{minus2, on_line, segment, square};
ghost use Rattle.ridge_theory.specs.Ridges.{HasOneMore, IsNewFacet, IsRidge};
ghost use Rattle.ridge_theory.specs.Examples.{lower, outside, right_side, slanted, upper};

/// An example, and no work: the lower and the right side of a square meet in a corner, and the lower and the upper one don't meet. With the point
/// (3, 0) the first two combine to a new facet. The ends of a segment are its first end and one more point.
pub fn sides_are_an_example()
    ensures ridge { IsRidge 2 square lower right_side }
    ensures no_ridge { IsRidge 2 square lower upper → ⊥ }
    ensures new { IsNewFacet 2 square outside lower right_side slanted }
    ensures one_more { HasOneMore (on_line minus2 ∷ []) (on_line (pos 5)) segment }
{}
