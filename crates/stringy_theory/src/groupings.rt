//! The groupings of the sum over triples of faces.
ghost use Rattle.stringy_theory.specs.Laws.{NumeratorByPairs, NumeratorByFaces};

/// The sum over pairs of faces, with a polynomial for each interval, is the numerator.
pub fn numerator_by_pairs()
    ensures { NumeratorByPairs }
{}

/// The sum over faces, of a product of two polynomials for each face, is the numerator.
pub fn numerator_by_faces()
    ensures { NumeratorByFaces }
{}
