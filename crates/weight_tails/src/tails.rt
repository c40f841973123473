//! The list of the tails.
ghost use Rattle.std.specs.Prelude.{◌≡◌, ◌+◌, ◌-◌, ◌<◌, ◌≤◌, ◌∷◌, [], ◌++◌, length, map, take, drop, OnOk};
ghost use Rattle.std.specs.List.{All};
ghost use Rattle.lattice_core.specs.Weights.{total};
ghost use Rattle.lattice_core.specs.declared.limits.TheConstants.{MOST_COORDINATES, MOST_DEGREE};
ghost use Rattle.interior_point_theory.specs.Interior.{system_of};
ghost use Rattle.interior_point_theory.specs.Around.{HasTails};
ghost use Rattle.weight_points.specs.steps.Waits.{CanTake};
ghost use Rattle.weight_tails.specs.steps.Levels.{AreLevels};
ghost use Rattle.weight_tails.specs.steps.Listing.{IsListed, AddsEach, AreOnce, StayOnce, lowered, tail_of};

use crate::levels::is_enough;
use arrayvec::ArrayVec;
use lattice_core::{MOST_COORDINATES, NoMemory, Point};

/// An exponent less 1.
#[inline]
fn lowered(exponent: u64) -> i64
    requires { exponent ≤ MOST_DEGREE }
    ensures { result ≡ lowered exponent }
{
    exponent as i64 - 1
}

/// The exponents, less 1.
#[inline]
fn all_lowered(exponents: &[u64]) -> ArrayVec<i64, MOST_COORDINATES>
    requires few { length exponents.now ≤ MOST_COORDINATES }
    requires small { All (λ e. e ≤ MOST_DEGREE) exponents.now }
    ensures { result.items ≡ map lowered exponents.now }
{
    let mut entries = ArrayVec::new();
    for e in exponents {
        entries.push(lowered(*e));
    }
    entries
}

/// Adds the tail of the exponents.
fn add_tail(exponents: &[u64], tails: &mut Vec<Point>) -> Result<(), NoMemory>
    requires some { 1 < length exponents.now }
    requires few { length exponents.now ≤ MOST_COORDINATES + 1 }
    requires small { All (λ e. e ≤ MOST_DEGREE) exponents.now }
    ensures { OnOk result (tails.new.items ≡ tails.old.items ++ tail_of exponents.now ∷ []) }
{
    if let Some(tail) = Point::new(&all_lowered(&exponents[1..])) {
        tails.push(tail)?;
    }
    Ok(())
}

/// Adds the tails of all exponents that are the entries from the place on, and of which those before it, at least one, take what is left.
fn add_tails(
    weights: &[u64],
    levels: &[u8],
    entries: &mut [u64],
    place: usize,
    left: u64,
    tails: &mut Vec<Point>,
) -> Result<(), NoMemory>
    requires some { 1 < length weights.now }
    requires few { length weights.now ≤ MOST_COORDINATES + 1 }
    requires positive { All (λ w. 1 ≤ w) weights.now }
    requires levels { AreLevels (take (length weights.now - 1) weights.now) levels.now }
    requires left { left < length levels.now }
    requires limit { left ≤ MOST_DEGREE }
    requires columns { length entries.old ≡ length weights.now }
    requires small { All (λ e. e ≤ MOST_DEGREE) entries.old }
    requires least { 1 ≤ place }
    requires most { place ≤ length weights.now }
    requires taken { CanTake (take place weights.now) left }
    ensures columns { length entries.new ≡ length entries.old }
    ensures small { All (λ e. e ≤ MOST_DEGREE) entries.new }
    ensures kept { OnOk result (drop place entries.new ≡ drop place entries.old) }
    ensures tails { OnOk result (AddsEach (IsListed weights.now entries.old place left) tails.old.items tails.new.items) }
    ensures once { OnOk result (StayOnce (IsListed weights.now entries.old place left) tails.old.items tails.new.items) }
{
    if place == 1 {
        return add_tail(entries, tails);
    }
    let last = place - 1;
    for value in 0..left / weights[last] + 1 {
        let rest = left - value * weights[last];
        if is_enough(levels, rest as usize, last) {
            entries[last] = value;
            add_tails(weights, levels, entries, last, rest, tails)?;
        }
    }
    Ok(())
}

/// Lists the tails of the system of weights and a degree, each once, in the place of what `tails` held, by the levels of all weights but the last. There are 2 to
/// 7 weights, each at least 1, and their sum is the degree, which is within its limit. Source: math/0204356, weight systems; the tails are this
/// project's own.
pub fn tails_of(
    weights: &[u64],
    degree: u64,
    levels: &[u8],
    tails: &mut Vec<Point>,
) -> Result<(), NoMemory>
    requires some { 1 < length weights.now }
    requires few { length weights.now ≤ MOST_COORDINATES + 1 }
    requires positive { All (λ w. 1 ≤ w) weights.now }
    requires sum { total weights.now ≡ degree }
    requires degree { degree ≤ MOST_DEGREE }
    requires columns { degree < length levels.now }
    requires levels { AreLevels (take (length weights.now - 1) weights.now) levels.now }
    ensures tails { OnOk result (HasTails (length weights.now - 1) (system_of degree weights.now) tails.new.items) }
    ensures once { OnOk result (AreOnce tails.new.items) }
{
    let mut entries = [0; MOST_COORDINATES + 1];
    tails.clear();
    add_tails(
        weights,
        levels,
        &mut entries[..weights.len()],
        weights.len(),
        degree,
        tails,
    )
}
