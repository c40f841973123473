//! The numbers of a pair with its sides exchanged.
ghost use Rattle.batyrev.specs.Laws.{DivisorsAreDeformationsOfTheDual, ExchangedLines};

/// The number of divisors of a polytope is the number of deformations of its dual.
pub fn divisors_are_deformations_of_the_dual()
    ensures { DivisorsAreDeformationsOfTheDual }
{}

/// On a pair with its sides exchanged `hodge` has h11 and h21 exchanged in dimension 4, and h11 and h31 in dimension 5. Source for dimension 4:
/// alg-geom/9310003.
pub fn exchanged_lines()
    ensures { ExchangedLines }
{}
