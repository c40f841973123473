//! Which numbers the first of some weights take exactly.
ghost use Rattle.std.specs.Prelude.{◌≡◌, ◌⊎◌, ◌↔◌, ℕ, ◌+◌, ◌-◌, ◌<◌, ◌≤◌, List, [], ◌∷◌, ◌++◌, length, take, IfOk, IsTrue};
ghost use Rattle.std.specs.List.{All};
ghost use Rattle.lattice_core.specs.declared.limits.TheConstants.{MOST_DEGREE};
ghost use Rattle.weight_points.specs.steps.Waits.{CanTake};
ghost use Rattle.weight_tails.specs.steps.Levels.{level, AreLevels, TellAlike, TakesTwice, IsTwiceAnswer};

use lattice_core::NoMemory;
use std::alloc::Global;

/// The level of a number that no weights take.
const NEVER: u8 = 255;

/// The levels of no weights, which take 0 alone, for the numbers up to the degree, which is within its limit. This project's own.
pub fn levels_of_none(alloc: Global, degree: u64) -> Result<Vec<u8>, NoMemory>
    requires { degree ≤ MOST_DEGREE }
    ensures columns { IfOk result (λ levels. length levels.items ≡ degree + 1) }
    ensures levels { IfOk result (λ levels. AreLevels [] levels.items) }
{
    let mut levels = Vec::from_elem(alloc, NEVER, degree as usize + 1)?;
    levels[0] = 0;
    Ok(levels)
}

/// Whether so many weights are enough to take the number.
#[inline]
pub(crate) fn is_enough(levels: &[u8], number: usize, count: usize) -> bool
    requires { number < length levels.now }
    ensures { IsTrue result ↔ (level levels.now number ≤ count) }
{
    usize::from(levels[number]) <= count
}

/// The level of a number with one weight more than `count`, where the levels of the smaller ones are known.
#[inline]
fn next_level(levels: &[u8], count: usize, weight: usize, number: usize) -> u8
    requires count { count ≤ 6 }
    requires number { number < length levels.now }
    ensures alike { (k : ℕ) → k ≤ count → (level levels.now number ≤ k) ↔ (result ≤ k) }
    ensures enough { (result ≤ count + 1) ↔ ((level levels.now number ≤ count)
        ⊎ ((weight ≤ number) × (level levels.now (number - weight) ≤ count + 1))) }
{
    if is_enough(levels, number, count) {
        return levels[number];
    }
    if weight <= number && is_enough(levels, number - weight, count + 1) {
        return count as u8 + 1;
    }
    NEVER
}

/// The levels of weights, of which there are `count`, at most 6, with one weight more, which is at least 1. What they told of the weights before
/// is kept.
pub fn add_weight(levels: &mut [u8], count: usize, weight: u64)
    requires count { count ≤ 6 }
    requires positive { 1 ≤ weight }
    ensures columns { length levels.new ≡ length levels.old }
    ensures alike { TellAlike count levels.old levels.new }
    ensures levels { (weights : List ℕ) → length weights ≡ count → AreLevels weights levels.old → AreLevels (weights ++ weight ∷ []) levels.new }
{
    for number in 0..levels.len() {
        levels[number] = next_level(levels, count, weight as usize, number);
    }
}

/// Whether the weights take the number, by the levels of all but the last of them.
fn is_taken(weights: &[u64], levels: &[u8], number: u64) -> bool
    requires some { 1 ≤ length weights.now }
    requires positive { All (λ w. 1 ≤ w) weights.now }
    requires levels { AreLevels (take (length weights.now - 1) weights.now) levels.now }
    requires number { number < length levels.now }
    ensures { IsTrue result ↔ CanTake weights.now number }
{
    let last = weights.len() - 1;
    for times in 0..number / weights[last] + 1 {
        if is_enough(levels, (number - times * weights[last]) as usize, last) {
            return true;
        }
    }
    false
}

/// Whether the weights take the degree with the one at the place twice.
fn is_taken_twice(weights: &[u64], levels: &[u8], degree: u64, place: usize) -> bool
    requires place { place < length weights.now }
    requires positive { All (λ w. 1 ≤ w) weights.now }
    requires levels { AreLevels (take (length weights.now - 1) weights.now) levels.now }
    requires degree { degree < length levels.now }
    requires limit { degree ≤ MOST_DEGREE }
    ensures { IsTrue result ↔ TakesTwice degree weights.now place }
{
    weights[place] <= degree / 2 && is_taken(weights, levels, degree - 2 * weights[place])
}

/// Whether the weights take the degree with each of them twice, by the levels of all but the last of them. An interior-point system does. There is
/// at least one weight, and each is at least 1. This project's own.
pub fn are_taken_twice(weights: &[u64], levels: &[u8], degree: u64) -> bool
    requires some { 1 ≤ length weights.now }
    requires positive { All (λ w. 1 ≤ w) weights.now }
    requires levels { AreLevels (take (length weights.now - 1) weights.now) levels.now }
    requires degree { degree < length levels.now }
    requires limit { degree ≤ MOST_DEGREE }
    ensures { IsTwiceAnswer degree weights.now result }
{
    for i in 0..weights.len() {
        if !is_taken_twice(weights, levels, degree, weights.len() - 1 - i) {
            return false;
        }
    }
    true
}
