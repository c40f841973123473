//! The recursion of one system over the vectors, and of all systems.
ghost use Rattle.std.specs.Prelude.{◌≡◌, ◌+◌, ◌<◌, ◌≤◌, [], ◌++◌, length, drop, MatchResult};
ghost use Rattle.lattice_core.specs.Weights.{weighted, weighted_all, AreWellFormed, AreWithinLimits};
ghost use Rattle.lattice_core.specs.declared.limits.TheConstants.{MOST_WEIGHTS};
ghost use Rattle.weight_frame.specs.steps.Reached.{listed, IsReached, IsAbove, AreReached, IsUsable, AreSmallVectors};
ghost use Rattle.weight_frame.specs.Answers.{IsFrameWithinLimit, ExceedsEntryLimit};

use crate::exchange::stepped;
use crate::values::weighted_value;
use crate::vector::{FrameVector, unit_vector, zero_vector};
use arrayvec::ArrayVec;
use lattice_core::{MOST_WEIGHTS, WeightSystem};

/// What a system has made of the vectors from some place on: vectors of value 0, in order, and the vector and the greatest common divisor for
/// the next step.
#[derive(Drop)]
struct Reached {
    kept: ArrayVec<FrameVector, MOST_WEIGHTS>,
    last: FrameVector,
    divisor: u64,
}

/// Puts the vector, where there is one, before the others.
fn put_first(vectors: &mut ArrayVec<FrameVector, MOST_WEIGHTS>, vector: Option<FrameVector>)
    requires { length vectors.old.items < MOST_WEIGHTS }
    ensures { vectors.new.items ≡ listed vector ++ vectors.old.items }
{
    if let Some(first) = vector {
        vectors.insert(0, first);
    }
}

/// Goes on with the vector at the place `i`.
fn with_vector(
    system: &WeightSystem,
    us: &[FrameVector],
    i: usize,
    before: Reached,
) -> Result<Reached, u128>
    requires usable { IsUsable (length system.now.weights.items) (weighted system.now) }
    requires columns { length system.now.weights.items ≤ MOST_WEIGHTS }
    requires small { AreSmallVectors (length system.now.weights.items) us.now }
    requires most { length us.now ≤ MOST_WEIGHTS }
    requires within { i < length us.now }
    requires reached { IsReached (length system.now.weights.items) (weighted system.now) (drop (i + 1) us.now) before.kept.items before.last before.divisor }
    ensures { MatchResult result
        (λ r. IsReached (length system.now.weights.items) (weighted system.now) (drop i us.now) r.kept.items r.last r.divisor)
        (IsAbove (length system.now.weights.items) (weighted system.now) (drop i us.now)) }
{
    let u = &us[i];
    let value = weighted_value(&system.weights, u.entries());
    let made = match stepped(u, value, &before.last, before.divisor) {
        Ok(made) => made,
        Err(told) => return Err(told),
    };
    let mut kept = before.kept;
    put_first(&mut kept, made.kept);
    Ok(Reached {
        kept,
        last: made.last,
        divisor: made.divisor,
    })
}

/// What a system makes of all vectors.
fn exchanged(system: &WeightSystem, us: &[FrameVector]) -> Result<Reached, u128>
    requires usable { IsUsable (length system.now.weights.items) (weighted system.now) }
    requires columns { length system.now.weights.items ≤ MOST_WEIGHTS }
    requires small { AreSmallVectors (length system.now.weights.items) us.now }
    requires most { length us.now ≤ MOST_WEIGHTS }
    ensures { MatchResult result
        (λ r. IsReached (length system.now.weights.items) (weighted system.now) us.now r.kept.items r.last r.divisor)
        (IsAbove (length system.now.weights.items) (weighted system.now) us.now) }
{
    let mut reached = Reached {
        kept: ArrayVec::new(),
        last: zero_vector(system.weights.len()),
        divisor: 0,
    };
    for i in (0..us.len()).rev() {
        reached = match with_vector(system, us, i, reached) {
            Ok(more) => more,
            Err(told) => return Err(told),
        };
    }
    Ok(reached)
}

/// The `n` unit vectors, in order.
fn unit_vectors(n: usize) -> ArrayVec<FrameVector, MOST_WEIGHTS>
    requires { n ≤ MOST_WEIGHTS }
    ensures { AreReached n [] result.items }
{
    let mut vectors = ArrayVec::new();
    for i in 0..n {
        vectors.push(unit_vector(n, i));
    }
    vectors
}

/// The frame of the systems, however many vectors it has. Where a vector of the recursion has an entry above the limit, the largest absolute
/// value of the first such vector is told.
pub(crate) fn frame_vectors(
    systems: &[WeightSystem],
) -> Result<ArrayVec<FrameVector, MOST_WEIGHTS>, u128>
    requires formed { AreWellFormed (weighted_all systems.now) }
    requires limited { AreWithinLimits (weighted_all systems.now) }
    ensures { MatchResult result (λ vs. IsFrameWithinLimit (weighted_all systems.now) vs.items) (ExceedsEntryLimit (weighted_all systems.now)) }
{
    let mut vectors = unit_vectors(systems[0].weights.len());
    for system in systems {
        vectors = match exchanged(system, vectors.as_slice()) {
            Ok(reached) => reached.kept,
            Err(told) => return Err(told),
        };
    }
    Ok(vectors)
}
