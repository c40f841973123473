//! The vectors of the recursion, which lie in the value itself.
ghost use Rattle.std.specs.Prelude.{◌≡◌, ◌<◌, ◌≤◌, length, negsuc, ⊤};
ghost use Rattle.lattice_theory.specs.Vector.{scaled, IsUnitVector};
ghost use Rattle.lattice_core.specs.declared.limits.TheConstants.{MOST_WEIGHTS, MOST_FRAME_ENTRY};
ghost use Rattle.weight_frame.specs.Frame.{IsZeroVector, largest};

use arrayvec::ArrayVec;
use lattice_core::MOST_WEIGHTS;
use std::default::Default;
use std::marker::Model;

/// A vector of at most 12 integers. Contracts see the list of its entries.
#[derive(Drop)]
pub(crate) struct FrameVector {
    entries: ArrayVec<i64, MOST_WEIGHTS>,
}

impl Model for FrameVector {
    ghost use Rattle.std.specs.Prelude.{List, ℤ};

    ghost Value = { List ℤ };

    ghost view = { λ v. v.entries.items };
}

impl Default for FrameVector {
    ghost is_default = { λ _. ⊤ };

    fn default() -> FrameVector {
        FrameVector {
            entries: ArrayVec::new(),
        }
    }
}

impl FrameVector {
    /// The vector with these entries.
    pub(crate) fn new(entries: ArrayVec<i64, MOST_WEIGHTS>) -> FrameVector
        ensures { result ≡ entries.items }
    {
        FrameVector { entries }
    }

    /// All entries, in order.
    pub(crate) fn entries(&self) -> &[i64]
        ensures value { result.now ≡ self.now }
        ensures most { length result.now ≤ MOST_WEIGHTS }
    {
        self.entries.as_slice()
    }

    /// The same vector again.
    pub(crate) fn copied(&self) -> FrameVector
        ensures { result ≡ self.now }
    {
        match ArrayVec::try_from(self.entries.as_slice()) {
            Ok(entries) => FrameVector { entries },
            Err(_) => unreachable!(),
        }
    }
}

/// The vector of `n` entries 0.
pub(crate) fn zero_vector(n: usize) -> FrameVector
    requires { n ≤ MOST_WEIGHTS }
    ensures zero { IsZeroVector n result }
    ensures within { largest result ≤ MOST_FRAME_ENTRY }
{
    let mut entries = ArrayVec::new();
    for _place in 0..n {
        entries.push(0);
    }
    FrameVector::new(entries)
}

/// The unit vector of `n` entries with 1 at the place `i`.
pub(crate) fn unit_vector(n: usize, i: usize) -> FrameVector
    requires within { i < n }
    requires most { n ≤ MOST_WEIGHTS }
    ensures unit { IsUnitVector n i result }
    ensures within { largest result ≤ MOST_FRAME_ENTRY }
{
    let mut entries = ArrayVec::new();
    for j in 0..n {
        entries.push(if i == j { 1 } else { 0 });
    }
    FrameVector::new(entries)
}

/// The opposite vector.
pub(crate) fn opposite(x: &FrameVector) -> FrameVector
    requires { largest x.now ≤ MOST_FRAME_ENTRY }
    ensures value { result ≡ scaled (negsuc 0) x.now }
    ensures within { largest result ≤ MOST_FRAME_ENTRY }
{
    let mut entries = ArrayVec::new();
    for entry in x.entries() {
        entries.push(-*entry);
    }
    FrameVector::new(entries)
}
