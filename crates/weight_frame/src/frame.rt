//! Frames.
ghost use Rattle.std.specs.Prelude.{◌≡◌, ℕ, ◌+◌, ◌<◌, ◌≤◌, [], length, nat_abs, slice_index_or, IfOk, OnOk, IfErr};
ghost use Rattle.std.specs.List.{All};
ghost use Rattle.lattice_theory.specs.Vector.{entry};
ghost use Rattle.lattice_core.specs.Weights.{weighted_all, columns_of, AreWellFormed, AreWithinLimits};
ghost use Rattle.lattice_core.specs.declared.limits.TheConstants.{MOST_COORDINATES, MOST_WEIGHTS, MOST_DEGREE, MOST_COORDINATE, MOST_FRAME_ENTRY};
ghost use Rattle.weight_frame.specs.declared.frame.FrameFault.TheVariants as FrameFault;
ghost use Rattle.weight_frame.specs.Answers.{IsFrameWithinLimit, ExceedsEntryLimit, HasOtherDimension, IsFrameFault, IsHandedOut, IsAnswer};
ghost use Rattle.weight_frame.specs.Frame.{IsIntegerCombination};

use crate::coordinates::{Coordinates, answer, combine};
use crate::systems::frame_vectors;
use crate::vector::FrameVector;
use arrayvec::ArrayVec;
use lattice_core::{MOST_COORDINATES, MOST_WEIGHTS, Point, WeightSystem};
use std::alloc::{AllocError, AllocFailed, Global};
use std::marker::Model;

/// The frame of a weight lattice, with the systems that it is the frame of. Contracts see the systems and the list of the frame's vectors, of
/// which there are 1 to 6.
#[derive(Drop)]
pub struct Frame {
    systems: Vec<WeightSystem>,
    vectors: ArrayVec<FrameVector, MOST_WEIGHTS>,
}

impl Model for Frame {
    ghost use Rattle.lattice_core.specs.Weights.{weighted_all};
    ghost use Rattle.weight_frame.specs.Answers.{Framed, IsHandedOut};

    ghost Value = { Framed };

    ghost view = { λ f. record { systems = weighted_all f.systems.items; vectors = f.vectors.items } };

    ghost invariant = { λ f. IsHandedOut (record { systems = weighted_all f.systems.items; vectors = f.vectors.items }) };
}

/// Why there is no frame.
#[derive(Clone, Copy, Debug, PartialEq, Eq)]
pub enum FrameFault {
    /// A vector of the frame's recursion has an entry above 1,099,511,627,776 in size. The largest absolute value of the entries of the first
    /// such vector is told.
    Entry(u128),
    /// The frame has no vector or more than 6. Their number is told.
    Dim(u32),
    /// There was no memory.
    NoMemory,
}

impl From<AllocError> for FrameFault {
    ghost from_gives = { λ _ fault. fault ≡ FrameFault.NoMemory };

    fn from(_: AllocError) -> FrameFault {
        FrameFault::NoMemory
    }
}

impl<T: Drop> From<AllocFailed<T>> for FrameFault {
    ghost from_gives = { λ _ fault. fault ≡ FrameFault.NoMemory };

    fn from(_: AllocFailed<T>) -> FrameFault {
        FrameFault::NoMemory
    }
}

/// The same systems again.
fn copied_systems(alloc: Global, systems: &[WeightSystem]) -> Result<Vec<WeightSystem>, FrameFault>
    ensures copies { IfOk result (λ copies. weighted_all copies.items ≡ weighted_all systems.now) }
    ensures fault { IfErr result (λ fault. fault ≡ FrameFault.NoMemory) }
{
    let mut copies = Vec::new(alloc);
    for system in systems {
        copies.push(WeightSystem {
            degree: system.degree,
            weights: system.weights.clone()?,
        })?;
    }
    Ok(copies)
}

/// The frame of the weight lattice of well-formed systems within the limits. It is refused exactly where a vector of the recursion has an entry
/// above 1,099,511,627,776 in size (the largest absolute value of the first such vector is told), and then exactly where the frame has no vector
/// or more than 6 (their number is told). `NoMemory` comes where the copy of the systems that the frame holds finds no memory.
pub fn frame_of(alloc: Global, systems: &[WeightSystem]) -> Result<Frame, FrameFault>
    requires formed { AreWellFormed (weighted_all systems.now) }
    requires limited { AreWithinLimits (weighted_all systems.now) }
    ensures systems { IfOk result (λ f. f.systems ≡ weighted_all systems.now) }
    ensures frame { IfOk result (λ f. IsFrameWithinLimit (weighted_all systems.now) f.vectors) }
    ensures least { IfOk result (λ f. 1 ≤ length f.vectors) }
    ensures most { IfOk result (λ f. length f.vectors ≤ MOST_COORDINATES) }
    ensures entries { OnOk result ((told : ℕ) → ExceedsEntryLimit (weighted_all systems.now) told → ⊥) }
    ensures dimension { OnOk result ((n : ℕ) → HasOtherDimension (weighted_all systems.now) n → ⊥) }
    ensures fault { IfErr result (IsFrameFault (weighted_all systems.now)) }
{
    let vectors = match frame_vectors(systems) {
        Ok(vectors) => vectors,
        Err(told) => return Err(FrameFault::Entry(told)),
    };
    let n = vectors.len();
    if n == 0 || n > MOST_COORDINATES {
        return Err(FrameFault::Dim(n as u32));
    }
    let systems = copied_systems(alloc, systems)?;
    Ok(Frame { systems, vectors })
}

impl Frame {
    /// The number of vectors, 1 to 6. The vectors are the frame of the systems, which are well formed and within the limits.
    pub fn dim(&self) -> usize
        ensures value { result ≡ length self.now.vectors }
        ensures least { 1 ≤ result }
        ensures most { result ≤ MOST_COORDINATES }
        ensures frame { IsHandedOut self.now }
    {
        self.vectors.len()
    }

    /// The number of entries of a vector, which is that of weights of a system, at most 12.
    pub fn columns(&self) -> usize
        ensures value { result ≡ columns_of self.now.systems }
        ensures most { result ≤ MOST_WEIGHTS }
    {
        self.systems[0].weights.len()
    }

    /// The entry of a vector at a place, both counted from 0. It is at most 1,099,511,627,776 in size.
    pub fn entry(&self, j: usize, i: usize) -> i128
        requires vector { j < length self.now.vectors }
        requires place { i < columns_of self.now.systems }
        ensures value { result ≡ entry (slice_index_or self.now.vectors j []) i }
        ensures bound { nat_abs result ≤ MOST_FRAME_ENTRY }
    {
        i128::from(self.vectors[j].entries()[i])
    }

    /// What is known of the coordinates of a vector with an entry for each weight, each at most 32,768 in size, which is the largest degree and
    /// one: they are told where the vector is in the lattice and all of them are at most 1,073,741,824 in size. It takes no memory.
    pub fn to_frame(&self, x: &[i64]) -> Coordinates
        requires columns { length x.now ≡ columns_of self.now.systems }
        requires small { All (λ a. nat_abs a ≤ MOST_DEGREE + 1) x.now }
        ensures { IsAnswer self.now x.now result }
    {
        answer(&self.systems, self.vectors.as_slice(), x)
    }

    /// Writes the sum of the frame's vectors, each times its coordinate. `y` has as many coordinates as the frame has vectors, each at most
    /// 1,073,741,824 in size, and `out` has room for as many entries as a vector has.
    pub fn from_frame(&self, y: &Point, out: &mut [i128])
        requires dimension { length y.now ≡ length self.now.vectors }
        requires columns { length out.old ≡ columns_of self.now.systems }
        requires small { All (λ a. nat_abs a ≤ MOST_COORDINATE) y.now }
        ensures { IsIntegerCombination (columns_of self.now.systems) y.now self.now.vectors out.new }
    {
        combine(y.entries(), self.vectors.as_slice(), out);
    }
}
