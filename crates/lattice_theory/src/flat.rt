//! Flat lists of points.
ghost use Rattle.lattice_theory.specs.Laws.{FlatFunctionIsUnique};

/// Points, of which there is at least one, have at most one flat function.
pub fn flat_function_is_unique()
    ensures { FlatFunctionIsUnique }
{}
