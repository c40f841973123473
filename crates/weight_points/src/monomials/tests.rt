//! Exponent vectors of small weight systems, worked by hand.

ghost use Rattle.std.specs.Prelude.{◌≡◌, ℕ, ◌<◌, ◌≤◌, IsTrue};
ghost use Rattle.std.specs.List.{All};
ghost use Rattle.lattice_core.specs.Weights.{weighted, weighted_all, IsSummed, HasWeightAt, AreWellFormed, AreWithinLimits};
ghost use Rattle.lattice_core.specs.declared.limits.TheConstants.{MOST_DEGREE};

use super::columns;
use crate::{Monomials, count_to};
use lattice_core::{MOST_DEGREE, MOST_WEIGHTS, WeightSystem};
use std::alloc::Global;
use std::test::Fail;

/// Whether the system has so many weights, whose sum is its degree, from 1 to the greatest one.
fn is_summed(system: &WeightSystem, count: usize) -> bool
    ensures summed { IsTrue result → IsSummed count (weighted system.now) }
    ensures small { IsTrue result → system.now.degree ≤ MOST_DEGREE }
{
    if system.weights.len() != count || system.degree == 0 || system.degree > MOST_DEGREE {
        return false;
    }
    let mut left = system.degree;
    for weight in &system.weights {
        if *weight > left {
            return false;
        }
        left -= *weight;
    }
    left == 0
}

/// Whether all systems are such ones.
fn are_summed(systems: &[WeightSystem], count: usize) -> bool
    ensures summed { IsTrue result → All (IsSummed count) (weighted_all systems.now) }
    ensures small { IsTrue result → All (λ s. s.degree ≤ MOST_DEGREE) (weighted_all systems.now) }
{
    for system in systems {
        if !is_summed(system, count) {
            return false;
        }
    }
    true
}

/// Whether some system has a weight at the place.
fn has_weight(systems: &[WeightSystem], place: usize) -> bool
    ensures { IsTrue result → HasWeightAt (weighted_all systems.now) place }
{
    for system in systems {
        if place < system.weights.len() && system.weights[place] > 0 {
            return true;
        }
    }
    false
}

/// Whether some system has a weight at each of so many places.
fn are_used(systems: &[WeightSystem], count: usize) -> bool
    ensures { IsTrue result → (place : ℕ) → place < count → HasWeightAt (weighted_all systems.now) place }
{
    for place in 0..count {
        if !has_weight(systems, place) {
            return false;
        }
    }
    true
}

/// Whether these are one or two well formed systems within the limits.
fn are_valid(systems: &[WeightSystem]) -> bool
    ensures formed { IsTrue result → AreWellFormed (weighted_all systems.now) }
    ensures limits { IsTrue result → AreWithinLimits (weighted_all systems.now) }
{
    let count = columns(systems);
    if systems.is_empty() || systems.len() > 2 || count > MOST_WEIGHTS {
        return false;
    }
    if !are_summed(systems, count) {
        return false;
    }
    are_used(systems, count)
}

/// The systems with these degrees and weights.
fn systems_with(alloc: Global, lines: &[(u64, &[u64])]) -> Result<Vec<WeightSystem>, Fail> {
    let mut systems = Vec::new(alloc);
    for (degree, weights) in lines {
        systems.push(WeightSystem {
            degree: *degree,
            weights: Vec::from_slice(alloc, *weights)?,
        })?;
    }
    Ok(systems)
}

/// Whether the walk gives exactly these vectors, and then nothing more.
fn gives(alloc: Global, systems: &[WeightSystem], want: &[&[i64]]) -> Result<bool, Fail> {
    if !are_valid(systems) {
        return Ok(false);
    }
    let mut walk = Monomials::new(alloc, systems)?;
    let mut out = vec![in alloc; -1; columns(systems)]?;
    for vector in want {
        if !walk.next_into(out.as_mut_slice()) || out.as_slice() != *vector {
            return Ok(false);
        }
    }
    let last = out.clone()?;
    Ok(!walk.next_into(out.as_mut_slice()) && out == last)
}

/// The count up to the limit, and `None` for systems that aren't valid.
fn counted(alloc: Global, systems: &[WeightSystem], limit: u64) -> Result<Option<u64>, Fail>
    requires { limit ≤ 1_000_000 }
{
    if !are_valid(systems) {
        return Ok(None);
    }
    Ok(Some(count_to(alloc, systems, limit)?))
}

#[test]
fn gives_each_vector_in_order(rt: HostRuntime) -> Result<(), Fail> {
    let alloc = rt.alloc();
    let plane = systems_with(alloc, &[(3, &[1, 1, 1])])?;
    let want: [&[i64]; 10] = [
        &[0, 0, 3],
        &[0, 1, 2],
        &[0, 2, 1],
        &[0, 3, 0],
        &[1, 0, 2],
        &[1, 1, 1],
        &[1, 2, 0],
        &[2, 0, 1],
        &[2, 1, 0],
        &[3, 0, 0],
    ];
    assert!(rt; gives(alloc, &plane, &want)?);
    assert!(rt; !gives(alloc, &plane, &want[..9])?);
    Ok(())
}

#[test]
fn gives_the_vectors_of_two_systems(rt: HostRuntime) -> Result<(), Fail> {
    let alloc = rt.alloc();
    let square = systems_with(alloc, &[(2, &[1, 1, 0, 0]), (2, &[0, 0, 1, 1])])?;
    let want: [&[i64]; 9] = [
        &[0, 2, 0, 2],
        &[0, 2, 1, 1],
        &[0, 2, 2, 0],
        &[1, 1, 0, 2],
        &[1, 1, 1, 1],
        &[1, 1, 2, 0],
        &[2, 0, 0, 2],
        &[2, 0, 1, 1],
        &[2, 0, 2, 0],
    ];
    assert!(rt; gives(alloc, &square, &want)?);
    let linked = systems_with(alloc, &[(3, &[1, 1, 1]), (4, &[0, 1, 3])])?;
    assert!(rt; gives(alloc, &linked, &[&[1, 1, 1]])?);
    Ok(())
}

#[test]
fn passes_over_what_no_weights_complete(rt: HostRuntime) -> Result<(), Fail> {
    let alloc = rt.alloc();
    let pair = systems_with(alloc, &[(5, &[2, 3])])?;
    assert!(rt; gives(alloc, &pair, &[&[1, 1]])?);
    let three = systems_with(alloc, &[(5, &[1, 1, 3])])?;
    let want: [&[i64]; 9] = [
        &[0, 2, 1],
        &[0, 5, 0],
        &[1, 1, 1],
        &[1, 4, 0],
        &[2, 0, 1],
        &[2, 3, 0],
        &[3, 2, 0],
        &[4, 1, 0],
        &[5, 0, 0],
    ];
    assert!(rt; gives(alloc, &three, &want)?);
    Ok(())
}

#[test]
fn counts_up_to_a_limit(rt: HostRuntime) -> Result<(), Fail> {
    let alloc = rt.alloc();
    let plane = systems_with(alloc, &[(3, &[1, 1, 1])])?;
    for (limit, want) in [(20, 10), (10, 10), (9, 10), (8, 9), (0, 1)] {
        assert_eq!(rt; counted(alloc, &plane, limit)?, Some(want));
    }
    let quintic = systems_with(alloc, &[(5, &[1, 1, 1, 1, 1])])?;
    assert_eq!(rt; counted(alloc, &quintic, 1_000)?, Some(126));
    let square = systems_with(alloc, &[(2, &[1, 1, 0, 0]), (2, &[0, 0, 1, 1])])?;
    assert_eq!(rt; counted(alloc, &square, 1_000)?, Some(9));
    let elliptic = systems_with(alloc, &[(84, &[1, 1, 12, 28, 42])])?;
    assert_eq!(rt; counted(alloc, &elliptic, 1_000)?, Some(680));
    Ok(())
}
