//! The members of a kernel.

ghost use Rattle.std.specs.Prelude.{◌≡◌, ⊤};
ghost use Rattle.elimination.specs.Elimination.{Member};

use arrayvec::ArrayVec;
use lattice_core::MOST_COORDINATES;
use std::default::Default;
use std::marker::Model;

/// A vector of a kernel, and the place that it alone of the kernel's vectors uses. Contracts see the record of the two.
#[derive(Drop)]
pub(crate) struct KernelMember {
    own: usize,
    vector: ArrayVec<i128, MOST_COORDINATES>,
}

impl Model for KernelMember {
    ghost use Rattle.std.specs.Prelude.{◌≤◌, length};
    ghost use Rattle.elimination.specs.Elimination.{Member};

    ghost Value = { Member };

    ghost view = { λ k. record { own = k.own; vector = k.vector.items } };
}

impl Default for KernelMember {
    ghost is_default = { λ _. ⊤ };

    fn default() -> KernelMember {
        KernelMember {
            own: 0,
            vector: ArrayVec::new(),
        }
    }
}

impl KernelMember {
    /// The member with this own place and this vector.
    pub(crate) fn new(own: usize, vector: ArrayVec<i128, MOST_COORDINATES>) -> KernelMember
        ensures own { result.own ≡ own }
        ensures vector { result.vector ≡ vector.items }
    {
        KernelMember { own, vector }
    }

    /// The own place.
    pub(crate) fn own(&self) -> usize
        ensures { result ≡ self.now.own }
    {
        self.own
    }

    /// The vector's entries.
    pub(crate) fn vector(&self) -> &[i128]
        ensures { result.now ≡ self.now.vector }
    {
        self.vector.as_slice()
    }

    /// The same member again.
    pub(crate) fn copied(&self) -> KernelMember
        ensures { result ≡ self.now }
    {
        match ArrayVec::try_from(self.vector.as_slice()) {
            Ok(vector) => KernelMember {
                own: self.own,
                vector,
            },
            Err(_) => unreachable!(),
        }
    }
}
