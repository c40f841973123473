//! Primitive vectors: those whose entries have the greatest common divisor 1.
ghost use Rattle.lattice_theory.specs.Laws.{PrimitiveMultiple, PrimitivePart, PrimitiveSame};

/// An integer vector on the line of a primitive vector is an integer multiple of it.
pub fn primitive_multiple()
    ensures { PrimitiveMultiple }
{}

/// Each vector that isn't 0 is a positive multiple of a primitive one.
pub fn primitive_part()
    ensures { PrimitivePart }
{}

/// Two primitive vectors on one line are equal or opposite.
pub fn primitive_same()
    ensures { PrimitiveSame }
{}
