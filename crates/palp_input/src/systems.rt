// The weight systems of a line of numbers.
ghost use Rattle.std.specs.Prelude.{◌≡◌, ◌≤◌, None, length, drop, map, IfOk, MatchOption};
ghost use Rattle.lattice_core.specs.Weights.{weighted};
ghost use Rattle.palp_input.specs.SystemSteps.{TakesUpTo, placed_of, systems_read_of};
ghost use Rattle.palp_input.specs.Systems.{is_zero_column, other_length, systems_read, take_weights, weight_at, weighted_of, zero_column};
ghost use Rattle.palp_input.specs.declared.lines.LineNumber.{LineNumber};

use crate::lines::LineNumber;
use lattice_core::{NoMemory, WeightSystem};
use std::alloc::Global;

/// A system with the places of its numbers.
#[derive(Clone, Copy)]
pub struct PlacedSystem<'a> {
    /// The degree.
    pub degree: LineNumber,
    /// The weights, which stand in the line.
    pub weights: &'a [LineNumber],
}

/// The systems of a line.
#[derive(Drop)]
pub enum Systems<'a> {
    /// All of them.
    Summed(Vec<PlacedSystem<'a>>),
    /// The place of the degree of the first one whose weights don't sum to it.
    WrongSum(usize),
}

/// The systems of the numbers, one after another.
pub fn read_systems(alloc: Global, numbers: &[LineNumber]) -> Result<Systems<'_>, NoMemory>
    ensures { IfOk result (λ systems. systems_read_of systems ≡ systems_read (length numbers.now) numbers.now) }
{
    let mut systems = Vec::new(alloc);
    let mut place = 0;
    while place < numbers.len() {
        let degree = numbers[place];
        let Some(end) = weights_end(numbers, place + 1, degree.value) else {
            return Ok(Systems::WrongSum(degree.at));
        };
        let weights = &numbers[place + 1..end];
        systems.push(PlacedSystem { degree, weights })?;
        place = end;
    }
    Ok(Systems::Summed(systems))
}

/// The place behind the weights from the place on: their sum is the degree, and zeros follow. There
/// is none where a weight makes the sum exceed the degree, or the numbers end before it is reached.
fn weights_end(numbers: &[LineNumber], from: usize, degree: u64) -> Option<usize>
    requires { from ≤ length numbers.now }
    ensures { MatchOption result (take_weights degree (drop from numbers.now) ≡ None)
        (TakesUpTo numbers.now from degree) }
{
    let mut left = degree;
    for place in from..numbers.len() {
        let weight = numbers[place].value;
        if weight > left {
            return if left == 0 { Some(place) } else { None };
        }
        left -= weight;
    }
    if left == 0 { Some(numbers.len()) } else { None }
}

/// The place of the degree of the first system with another number of weights.
pub fn other_length(systems: &[PlacedSystem], count: usize) -> Option<usize>
    ensures { result ≡ other_length count (map placed_of systems.now) }
{
    for system in systems {
        if system.weights.len() != count {
            return Some(system.degree.at);
        }
    }
    None
}

/// The place of the first weight of the first system that is 0 at the same place in every system.
pub fn zero_column(first: &[LineNumber], systems: &[PlacedSystem]) -> Option<usize>
    ensures { result ≡ zero_column 0 first.now (map placed_of systems.now) }
{
    for (place, number) in first.iter().enumerate() {
        if is_zero_column(systems, place) {
            return Some(number.at);
        }
    }
    None
}

/// Whether the weight at the place is 0 in every system.
fn is_zero_column(systems: &[PlacedSystem], place: usize) -> bool
    ensures { result ≡ is_zero_column place (map placed_of systems.now) }
{
    for system in systems {
        if weight_at(system.weights, place) != 0 {
            return false;
        }
    }
    true
}

/// The weight at the place, or 0 where there are fewer.
fn weight_at(weights: &[LineNumber], place: usize) -> u64
    ensures { result ≡ weight_at place weights.now }
{
    if place < weights.len() {
        weights[place].value
    } else {
        0
    }
}

/// The systems without the places of their numbers.
pub fn without_places(
    alloc: Global,
    systems: &[PlacedSystem],
) -> Result<Vec<WeightSystem>, NoMemory>
    ensures { IfOk result (λ items. map weighted items.items ≡ map weighted_of (map placed_of systems.now)) }
{
    let mut items = Vec::with_capacity(alloc, systems.len())?;
    for system in systems {
        let weights = values_of(alloc, system.weights)?;
        items.push(WeightSystem {
            degree: system.degree.value,
            weights,
        })?;
    }
    Ok(items)
}

/// The numbers without their places.
fn values_of(alloc: Global, numbers: &[LineNumber]) -> Result<Vec<u64>, NoMemory>
    ensures { IfOk result (λ values. values.items ≡ map (λ (n : LineNumber). n.value) numbers.now) }
{
    let mut values = Vec::with_capacity(alloc, numbers.len())?;
    for number in numbers {
        values.push(number.value)?;
    }
    Ok(values)
}
