//! Batyrev's numbers by a table of all faces.
ghost use Rattle.batyrev_theory.specs.Laws.{FaceTableExists, DivisorsByTable, DeformationsByTable, ProductsByTable};

/// There is a table of all faces of a relation, each once, with dual faces, ranks and coranks.
pub fn face_table_exists()
    ensures { FaceTableExists }
{}

/// Any such table, with the lists of points of both sides, gives the number of divisors.
pub fn divisors_by_table()
    ensures { DivisorsByTable }
{}

/// It gives the number of deformations.
pub fn deformations_by_table()
    ensures { DeformationsByTable }
{}

/// It gives the sum of products over the faces of each rank.
pub fn products_by_table()
    ensures { ProductsByTable }
{}
