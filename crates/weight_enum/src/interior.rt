//! Whether weights are an interior-point system.
ghost use Rattle.std.specs.Prelude.{◌≡◌, [], ◌↔◌, ◌+◌, ◌-◌, ◌≤◌, ◌<ℤ◌, length, take, pos, IfOk, IsTrue};
ghost use Rattle.std.specs.List.{All};
ghost use Rattle.lattice_theory.specs.Order.{Ascends};
ghost use Rattle.lattice_core.specs.Weights.{total};
ghost use Rattle.interior_point_theory.specs.Around.{HasTails};
ghost use Rattle.interior_point_theory.specs.Interior.{HasInteriorPoint, IsInteriorPointSystem, system_of};
ghost use Rattle.weight_tails.specs.steps.Levels.{AreLevels};
ghost use Rattle.weight_enum.specs.Taken.{AreTaken};

use crate::certificates::verdict_of;
use crate::primitive::is_primitive;
use crate::refuters::Refuters;
use crate::weights::{is_ascending, sum_of};
use hull::all_facets;
use lattice_core::{Fault, Functional, NoMemory, Point};
use std::alloc::Global;
use weight_tails::{add_weight, are_taken_twice, levels_of_none, tails_of};

/// Whether all constants are positive.
fn are_positive(facets: &[Functional]) -> bool
    ensures { IsTrue result ↔ All (λ f. pos 0 <ℤ f.constant) facets.now }
{
    facets.iter().all(|f| f.constant() > 0)
}

/// Whether the system of weights and their sum as the degree, with these tails, has an interior point: they aren't flat, and each facet of them has a
/// positive constant. Facets that refute are kept.
fn has_interior_by_facets(
    alloc: Global,
    weights: &[u64],
    degree: u64,
    tails: &[Point],
    refuters: &mut Refuters,
) -> Result<bool, NoMemory>
    requires taken { AreTaken degree weights.now }
    requires tails { HasTails (length weights.now - 1) (system_of degree weights.now) tails.now }
    ensures { IfOk result (λ b. IsTrue b ↔ HasInteriorPoint (system_of degree weights.now)) }
{
    match all_facets(alloc, tails) {
        Ok(facets) => {
            refuters.keep(&facets)?;
            Ok(are_positive(&facets))
        }
        Err(Fault::NoMemory) => Err(NoMemory),
        Err(Fault::Refused(_)) => Ok(false),
    }
}

/// The same of the system of the weights: by the refuters, by a certificate, or by facets, in this order. What `tails` held is lost.
fn has_interior(
    alloc: Global,
    weights: &[u64],
    degree: u64,
    levels: &[u8],
    tails: &mut Vec<Point>,
    refuters: &mut Refuters,
) -> Result<bool, NoMemory>
    requires taken { AreTaken degree weights.now }
    requires columns { length levels.now ≡ degree + 1 }
    requires levels { AreLevels (take (length weights.now - 1) weights.now) levels.now }
    ensures { IfOk result (λ b. IsTrue b ↔ HasInteriorPoint (system_of degree weights.now)) }
{
    tails_of(weights, degree, levels, tails)?;
    let n = weights.len() - 1;
    if refuters.refute(tails, n) {
        return Ok(false);
    }
    match verdict_of(alloc, tails, n, refuters)? {
        Some(answer) => Ok(answer),
        None => has_interior_by_facets(alloc, weights, degree, tails, refuters),
    }
}

/// Whether weights that don't descend are an interior-point system, by the levels of all but the last of them. Most that aren't don't take the degree
/// with each of them twice.
pub(crate) fn is_system(
    alloc: Global,
    weights: &[u64],
    degree: u64,
    levels: &[u8],
    tails: &mut Vec<Point>,
    refuters: &mut Refuters,
) -> Result<bool, NoMemory>
    requires taken { AreTaken degree weights.now }
    requires ascends { Ascends (λ v w. v ≤ w) weights.now }
    requires columns { length levels.now ≡ degree + 1 }
    requires levels { AreLevels (take (length weights.now - 1) weights.now) levels.now }
    ensures { IfOk result (λ b. IsTrue b ↔ IsInteriorPointSystem (system_of degree weights.now)) }
{
    if !are_taken_twice(weights, levels, degree) {
        return Ok(false);
    }
    if !is_primitive(weights) {
        return Ok(false);
    }
    has_interior(alloc, weights, degree, levels, tails, refuters)
}

/// Takes all weights but the last into the levels of none.
fn add_front(levels: &mut [u8], weights: &[u64])
    requires some { 1 ≤ length weights.now }
    requires few { length weights.now ≤ 6 }
    requires positive { All (λ w. 1 ≤ w) weights.now }
    requires none { AreLevels [] levels.old }
    ensures columns { length levels.new ≡ length levels.old }
    ensures levels { AreLevels (take (length weights.now - 1) weights.now) levels.new }
{
    for count in 0..weights.len() - 1 {
        add_weight(levels, count, weights[count]);
    }
}

/// Whether weights that don't descend are an interior-point system, where the levels are those of none.
fn is_single_system(
    alloc: Global,
    weights: &[u64],
    degree: u64,
    levels: &mut [u8],
) -> Result<bool, NoMemory>
    requires taken { AreTaken degree weights.now }
    requires ascends { Ascends (λ v w. v ≤ w) weights.now }
    requires columns { length levels.old ≡ degree + 1 }
    requires none { AreLevels [] levels.old }
    ensures { IfOk result (λ b. IsTrue b ↔ IsInteriorPointSystem (system_of degree weights.now)) }
{
    add_front(levels, weights);
    let mut tails = Vec::new(alloc);
    let mut refuters = Refuters::new(alloc);
    is_system(alloc, weights, degree, levels, &mut tails, &mut refuters)
}

/// Whether the weights, with their sum as the degree, are an interior-point weight system: they don't descend, their greatest common divisor is 1,
/// and (1, .., 1) is in the interior of their exponent vectors. There are 2 to 6 weights, each at least 1; their sum is at most
/// `MOST_DEGREE_OF_FIVE`, and at most `MOST_DEGREE_OF_SIX` for 6 weights. Source: math/0204356, weight systems.
pub fn is_ip(alloc: Global, weights: &[u64]) -> Result<bool, NoMemory>
    requires { AreTaken (total weights.now) weights.now }
    ensures { IfOk result (λ b. IsTrue b ↔ IsInteriorPointSystem (system_of (total weights.now) weights.now)) }
{
    if !is_ascending(weights) {
        return Ok(false);
    }
    let degree = sum_of(weights);
    let mut levels = levels_of_none(alloc, degree)?;
    is_single_system(alloc, weights, degree, &mut levels)
}
