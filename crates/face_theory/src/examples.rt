//! Worked examples: the faces of the square and of the octahedron, and a relation whose chains differ in length.
ghost use Rattle.std.specs.Prelude.{true, false};
ghost use Rattle.face_theory.specs.Faces.{IsFace, AreFaces, IsRank, IsCorank, IsDualFace};
ghost use Rattle.face_theory.specs.Examples.{four, square_relation, square_faces, six, octahedron_relation, three, uneven_relation};

/// An example, and no work: the square has the empty face, four corners, four sides and the whole as faces, and a diagonal is none. A side has
/// the rank 2 and the corank 1, and the dual face of a corner has the two sides that meet there.
pub fn square_faces_are_an_example()
    ensures faces { AreFaces square_relation square_faces }
    ensures no_face { IsFace square_relation (four true false true false) → ⊥ }
    ensures rank { IsRank square_relation (four true true false false) 2 }
    ensures corank { IsCorank square_relation (four true true false false) 1 }
    ensures dual { IsDualFace square_relation (four false true false false) (four true true false false) }
{}

/// An example, and no work: an edge of the octahedron has the rank 2, a triangle 3 and the whole 4; a corner has the corank 3, and two opposite
/// corners make no face.
pub fn octahedron_faces_are_an_example()
    ensures edge { IsRank octahedron_relation (six false false false true true false) 2 }
    ensures triangle { IsRank octahedron_relation (six false false false true true true) 3 }
    ensures whole { IsRank octahedron_relation (six true true true true true true) 4 }
    ensures corner { IsCorank octahedron_relation (six false false false true false false) 3 }
    ensures no_face { IsFace octahedron_relation (six true false false true false false) → ⊥ }
{}

/// An example, and no work: rank and corank of a face needn't make up the rank of the whole: here they are 1 and 1 of one face, and 3 of the
/// whole.
pub fn uneven_chains_are_an_example()
    ensures rank { IsRank uneven_relation (three false false true) 1 }
    ensures corank { IsCorank uneven_relation (three false false true) 1 }
    ensures whole { IsRank uneven_relation (three true true true) 3 }
{}
