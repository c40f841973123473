//! Definitions of lattice geometry, for every dimension: vectors, affine functions, orders, sizes, hulls, flat lists and facets, lattice points.
//! Beside them stand the algebra of vectors and of divisibility, and the theory of lists in an order. It stands on no other crate.
//! Its central theorem: a list that is told by its members and its order is told completely.
#![tactic(auto)]

mod examples;
mod flat;
mod primitive;

ghost use Rattle.lattice_theory.specs.Laws.{AscendingListOfVectorsIsUnique, AscendingListOfFunctionsIsUnique};

pub use examples::{
    diagonal_is_an_example, octahedron_is_an_example, segment_is_an_example, square_is_an_example,
    triangle_is_an_example, vectors_are_an_example,
};
pub use flat::flat_function_is_unique;
pub use primitive::{primitive_multiple, primitive_part, primitive_same};

/// A law, and no work: two lists of vectors, or of functions, that ascend strictly and have the same members are equal. So a list of exactly
/// the things of which something holds, each once and in order, is the only such list.
pub fn ascending_list_is_unique()
    ensures vectors { AscendingListOfVectorsIsUnique }
    ensures functions { AscendingListOfFunctionsIsUnique }
{}
