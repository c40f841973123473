//! The interior-point systems of one degree.
ghost use Rattle.std.specs.Prelude.{◌≡◌, ◌+◌, ◌-◌, ◌<◌, ◌≤◌, length, take, slice_index_or, IfOk, OnOk};
ghost use Rattle.lattice_core.specs.Weights.{weighted_all, total};
ghost use Rattle.interior_point_theory.specs.Beginnings.{IsBeginning};
ghost use Rattle.weight_enum.specs.Taken.{AreSearched};
ghost use Rattle.weight_enum.specs.Systems.{AreSystemsOfDegree};
ghost use Rattle.weight_tails.specs.steps.Levels.{AreLevels, TellAlike};
ghost use Rattle.weight_enum.specs.steps.Listing.{IsCompleted, AddsSystems, IsReady, ServeTo};

use crate::cuts::{first_weight, most_weight};
use crate::interior::is_system;
use crate::refuters::Refuters;
use lattice_core::{NoMemory, Point, WeightSystem};
use std::alloc::Global;
use std::mem;
use weight_tails::{add_weight, levels_of_none};

/// The systems of a degree that were found, and what is kept from list to list and from degree to degree: room for tails, and functions that refuted
/// others.
#[derive(Drop)]
pub(crate) struct Found {
    tails: Vec<Point>,
    refuters: Refuters,
    systems: Vec<WeightSystem>,
}

impl Found {
    /// Nothing yet.
    pub(crate) fn new(alloc: Global) -> Found {
        Found {
            tails: Vec::new(alloc),
            refuters: Refuters::new(alloc),
            systems: Vec::new(alloc),
        }
    }
}

/// Adds the weights, whose sum is the degree, where they are an interior-point system.
fn add_if_system(
    alloc: Global,
    weights: &[u64],
    degree: u64,
    levels: &[u8],
    found: &mut Found,
) -> Result<(), NoMemory>
    requires searched { AreSearched degree (length weights.now) }
    requires beginning { IsBeginning weights.now }
    requires sum { total weights.now ≡ degree }
    requires columns { length levels.now ≡ degree + 1 }
    requires levels { AreLevels (take (length weights.now - 1) weights.now) levels.now }
    ensures { OnOk result (AddsSystems (IsCompleted degree (length weights.now) weights.now) degree
        (weighted_all found.old.systems.items) (weighted_all found.new.systems.items)) }
{
    if is_system(
        alloc,
        weights,
        degree,
        levels,
        &mut found.tails,
        &mut found.refuters,
    )? {
        let weights = Vec::from_slice(alloc, weights)?;
        found.systems.push(WeightSystem { degree, weights })?;
    }
    Ok(())
}

/// Takes the weight at the place into the levels of those before it, where it isn't the last one.
fn carry(levels: &mut [u8], weights: &[u64], place: usize)
    requires few { length weights.now ≤ 6 }
    requires place { place < length weights.now }
    requires positive { 1 ≤ slice_index_or weights.now place 0 }
    requires serve { ServeTo place weights.now levels.old }
    ensures columns { length levels.new ≡ length levels.old }
    ensures alike { TellAlike place levels.old levels.new }
    ensures serve { ServeTo (place + 1) weights.now levels.new }
{
    if place + 1 < weights.len() {
        add_weight(levels, place, weights[place]);
    }
}

/// Adds the interior-point systems whose weights begin with those before the place, which leave `rest` of the degree. None below the least may
/// follow them.
fn add_systems(
    alloc: Global,
    weights: &mut [u64],
    degree: u64,
    place: usize,
    least: u64,
    rest: u64,
    levels: &mut [u8],
    found: &mut Found,
) -> Result<(), NoMemory>
    requires searched { AreSearched degree (length weights.old) }
    requires ready { IsReady degree (length weights.old) (take place weights.old) place least rest }
    requires numbers { length levels.old ≡ degree + 1 }
    requires serve { ServeTo place weights.old levels.old }
    ensures columns { length weights.new ≡ length weights.old }
    ensures kept { OnOk result (take place weights.new ≡ take place weights.old) }
    ensures numbers { length levels.new ≡ length levels.old }
    ensures alike { OnOk result (TellAlike place levels.old levels.new) }
    ensures systems { OnOk result (AddsSystems (IsCompleted degree (length weights.old) (take place weights.old)) degree
        (weighted_all found.old.systems.items) (weighted_all found.new.systems.items)) }
{
    if place == weights.len() {
        return add_if_system(alloc, weights, degree, levels, found);
    }
    let first = first_weight(weights.len(), degree, place, least, rest);
    let most = most_weight(weights.len(), degree, place, rest);
    for weight in first..most + 1 {
        weights[place] = weight;
        carry(levels, weights, place);
        add_systems(
            alloc,
            weights,
            degree,
            place + 1,
            weight,
            rest - weight,
            levels,
            found,
        )?;
    }
    Ok(())
}

/// The interior-point systems of a degree with so many weights. What is kept serves the next degree.
pub(crate) fn systems_kept(
    alloc: Global,
    count: usize,
    degree: u64,
    found: &mut Found,
) -> Result<Vec<WeightSystem>, NoMemory>
    requires { AreSearched degree count }
    ensures { IfOk result (λ systems. AreSystemsOfDegree degree count (weighted_all systems.items)) }
{
    let mut weights = Vec::from_elem(alloc, 0, count)?;
    let mut levels = levels_of_none(alloc, degree)?;
    found.systems = Vec::new(alloc);
    add_systems(
        alloc,
        &mut weights,
        degree,
        0,
        1,
        degree,
        &mut levels,
        found,
    )?;
    Ok(mem::replace(&mut found.systems, Vec::new(alloc)))
}

/// The interior-point systems of a degree with so many weights, from 2 to 6, each once, ordered by their weights. The degree is at most
/// `MOST_DEGREE_OF_FIVE`, and at most `MOST_DEGREE_OF_SIX` for 6 weights. Source: math/0204356, weight systems.
pub fn systems_of_degree(
    alloc: Global,
    count: usize,
    degree: u64,
) -> Result<Vec<WeightSystem>, NoMemory>
    requires { AreSearched degree count }
    ensures { IfOk result (λ systems. AreSystemsOfDegree degree count (weighted_all systems.items)) }
{
    systems_kept(alloc, count, degree, &mut Found::new(alloc))
}
