//! What can go wrong, and the limit on coefficients.
ghost use Rattle.std.specs.Prelude.{◌≡◌};
ghost use Rattle.poset_g.specs.declared.faults.GFault.TheVariants as GFault;

use std::alloc::{AllocError, AllocFailed};

/// The largest size of a coefficient of G or G'.
pub const MOST_COEFFICIENT: u64 = 4_096;

/// Why there is no table of G and G'.
#[derive(Clone, Copy, Debug, PartialEq, Eq)]
pub enum GFault {
    /// A coefficient of G or G' is above 4,096 in size: the first one is told, with its interval.
    Coef {
        /// The number of the face from which the interval goes.
        from: u32,
        /// The number of the face to which it goes.
        to: u32,
        /// The power of t.
        degree: u32,
        /// The coefficient.
        value: i128,
    },
    /// There was no memory.
    NoMemory,
}

impl From<AllocError> for GFault {
    ghost from_gives = { λ _ fault. fault ≡ GFault.NoMemory };

    fn from(_: AllocError) -> GFault {
        GFault::NoMemory
    }
}

impl<T: Drop> From<AllocFailed<T>> for GFault {
    ghost from_gives = { λ _ fault. fault ≡ GFault.NoMemory };

    fn from(_: AllocFailed<T>) -> GFault {
        GFault::NoMemory
    }
}
