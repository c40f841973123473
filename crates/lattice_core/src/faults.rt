//! What can go wrong: want of memory, and refusals of an item.
ghost use Rattle.std.specs.Prelude.{◌≡◌};
ghost use Rattle.lattice_core.specs.declared.faults.Fault.TheVariants as Fault;

use crate::Functional;
use std::alloc::{AllocError, AllocFailed};

/// There was no memory for what had to be kept.
#[derive(Clone, Copy, Debug, PartialEq, Eq)]
pub struct NoMemory;

impl From<AllocError> for NoMemory {
    fn from(_: AllocError) -> NoMemory {
        NoMemory
    }
}

impl<T: Drop> From<AllocFailed<T>> for NoMemory {
    fn from(_: AllocFailed<T>) -> NoMemory {
        NoMemory
    }
}

/// Which limit an item exceeds.
#[derive(Clone, Copy, Debug, PartialEq, Eq)]
pub enum LimitName {
    /// The number of systems of a weight line.
    Systems,
    /// The number of weights of a system.
    Weights,
    /// The degree of a system.
    Degree,
    /// The product of all degrees of a weight line.
    DegreeProduct,
    /// The absolute value of an entry of a vector that the frame's recursion makes.
    Frame,
    /// The dimension.
    Dim,
    /// The larger number of a matrix's header.
    Input,
    /// The number of exponent vectors.
    Monomials,
    /// The size of the points.
    Size,
    /// The number of facets.
    Facets,
    /// The number of vertices.
    Vertices,
    /// The number of lattice points.
    Points,
    /// The size of the dual's vertices.
    DualSize,
    /// The number of the dual's lattice points.
    DualPoints,
    /// The number of faces.
    Faces,
    /// The number of parts of a nef partition.
    Codim,
    /// The dimension and the number of parts, together.
    Rank,
    /// The number of lattice points of a large dilate of the polytope.
    ScanM,
    /// The number of lattice points of a large dilate of the dual.
    ScanN,
    /// The number of a nef partition in its item.
    Partitions,
    /// The number of faces of a Cayley cone.
    ConeFaces,
    /// The number of pairs of one degree in a Cayley cone.
    ConeM,
    /// The number of pairs of one degree in the dual of a Cayley cone.
    ConeN,
    /// The absolute value of a coefficient of the polynomial of an interval of faces.
    Coef,
}

/// Why an item is refused.
#[derive(Clone, Debug, Drop, PartialEq, Eq)]
pub enum Refusal {
    /// The points are flat, and this is their flat function.
    Flat(Functional),
    /// The named limit is exceeded, by the number told.
    Limit(LimitName, u128),
}

/// What stops the work on an item.
#[derive(Clone, Debug, Drop, PartialEq, Eq)]
pub enum Fault {
    /// The item is refused.
    Refused(Refusal),
    /// There was no memory.
    NoMemory,
}

impl From<NoMemory> for Fault {
    ghost from_gives = { λ _ fault. fault ≡ Fault.NoMemory };

    fn from(_: NoMemory) -> Fault {
        Fault::NoMemory
    }
}

impl From<AllocError> for Fault {
    ghost from_gives = { λ _ fault. fault ≡ Fault.NoMemory };

    fn from(_: AllocError) -> Fault {
        Fault::NoMemory
    }
}

impl<T: Drop> From<AllocFailed<T>> for Fault {
    ghost from_gives = { λ _ fault. fault ≡ Fault.NoMemory };

    fn from(_: AllocFailed<T>) -> Fault {
        Fault::NoMemory
    }
}

impl From<Refusal> for Fault {
    ghost from_gives = { λ refusal fault. fault ≡ Fault.Refused refusal };

    fn from(refusal: Refusal) -> Fault {
        Fault::Refused(refusal)
    }
}

#[cfg(test)]
mod tests {
    use super::*;

    #[test]
    fn tells_want_of_memory_and_refusals(rt: HostRuntime) {
        assert_eq!(rt; Fault::from(AllocError), Fault::NoMemory);
        assert_eq!(rt; Fault::from(NoMemory::from(AllocError)), Fault::NoMemory);
        let refusal = Refusal::Limit(LimitName::Points, 16_385);
        assert_eq!(rt;
            Fault::from(refusal),
            Fault::Refused(Refusal::Limit(LimitName::Points, 16_385))
        );
    }
}
