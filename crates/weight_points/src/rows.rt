//! Weight systems with what is left of their degrees.

ghost use Rattle.std.specs.Prelude.{◌≡◌, ◌+◌, ◌*◌, ◌<◌, ◌≤◌, map, IfOk, IfSome, IfNone};
ghost use Rattle.std.specs.List.{All};
ghost use Rattle.lattice_core.specs.Weights.{weighted, weighted_all};
ghost use Rattle.lattice_core.specs.declared.limits.TheConstants.{MOST_DEGREE};
ghost use Rattle.weight_points.specs.steps.Rows.{system_of, systems_of, weight_at, HasPlace, IsAffordable, IsPlausible, IsNextValue, HasNoValue, IsRaised, IsReturnable, spending, returning, IsFresh};

use crate::waits::{NEVER, waits_of};
use lattice_core::{NoMemory, WeightSystem};
use std::alloc::Global;

/// A weight system beside exponents.
#[derive(Drop)]
pub(crate) struct Row {
    /// The weight system.
    pub(crate) system: WeightSystem,
    /// For each place, the last one first and behind a table of no weights: how often the weight there is taken before those behind it take
    /// exactly what is left of a number.
    pub(crate) tables: Vec<Vec<u16>>,
    /// What the exponents leave of the degree.
    pub(crate) left: u64,
}

impl Row {
    /// What is left after so many times the weight at the place, or `None` where less is left.
    #[inline]
    fn left_after(&self, place: usize, value: u64) -> Option<u64>
        requires { HasPlace place self.now }
        ensures some { IfSome result (λ left. left + value * weight_at self.now place ≡ self.now.left) }
        ensures none { IfNone result (self.now.left < value * weight_at self.now place) }
    {
        match value.checked_mul(self.system.weights[place]) {
            Some(spent) if spent <= self.left => Some(self.left - spent),
            _ => None,
        }
    }

    /// The least plausible value at the place that isn't below this one, or `None` where there is none.
    fn next_value(&self, place: usize, value: u64) -> Option<u64>
        requires place { HasPlace place self.now }
        requires value { value ≤ MOST_DEGREE }
        ensures some { IfSome result (IsNextValue (λ v. IsPlausible place v self.now) value) }
        ensures none { IfNone result (HasNoValue (λ v. IsPlausible place v self.now) value) }
    {
        let left = self.left_after(place, value)?;
        let waits = &self.tables[self.system.weights.len() - place];
        let wait = waits[left as usize];
        if wait < NEVER {
            return Some(value + u64::from(wait));
        }
        None
    }
}

/// A value, raised by each row to one that is plausible for it.
fn raised_value(rows: &[Row], place: usize, value: u64) -> Option<u64>
    requires places { All (HasPlace place) rows.now }
    requires value { value ≤ MOST_DEGREE }
    ensures some { IfSome result (IsRaised (λ v. All (IsPlausible place v) rows.now) value) }
    ensures none { IfNone result (HasNoValue (λ v. All (IsPlausible place v) rows.now) value) }
{
    let mut next = value;
    for row in rows {
        match row.next_value(place, next) {
            Some(further) => next = further,
            None => return None,
        }
    }
    Some(next)
}

/// The least value at the place, not below `from`, that is plausible for all rows, or `None` where there is none.
pub(crate) fn next_value(rows: &[Row], place: usize, from: u64) -> Option<u64>
    requires places { All (HasPlace place) rows.now }
    requires from { from ≤ MOST_DEGREE }
    ensures some { IfSome result (IsNextValue (λ v. All (IsPlausible place v) rows.now) from) }
    ensures none { IfNone result (HasNoValue (λ v. All (IsPlausible place v) rows.now) from) }
{
    let mut value = from;
    loop {
        match raised_value(rows, place, value) {
            Some(next) if next == value => return Some(value),
            Some(next) => value = next,
            None => return None,
        }
    }
}

/// Takes an affordable value times the weights at the place away from what is left.
pub(crate) fn spend(rows: &mut [Row], place: usize, value: u64)
    requires places { All (HasPlace place) rows.old }
    requires affordable { All (IsAffordable place value) rows.old }
    ensures { rows.new ≡ map (spending place value) rows.old }
{
    for row in rows.iter_mut() {
        row.left -= value * row.system.weights[place];
    }
}

/// Gives a value times the weights at the place back.
pub(crate) fn give_back(rows: &mut [Row], place: usize, value: u64)
    requires places { All (HasPlace place) rows.old }
    requires returnable { All (IsReturnable place value) rows.old }
    ensures { rows.new ≡ map (returning place value) rows.old }
{
    for row in rows.iter_mut() {
        row.left += value * row.system.weights[place];
    }
}

/// The row of a weight system beside exponents that are all 0.
fn row_of(alloc: Global, system: &WeightSystem) -> Result<Row, NoMemory>
    requires { system.now.degree ≤ MOST_DEGREE }
    ensures system { IfOk result (λ row. system_of row ≡ weighted system.now) }
    ensures fresh { IfOk result IsFresh }
{
    let tables = waits_of(alloc, &system.weights, system.degree)?;
    let weights = Vec::from_slice(alloc, &system.weights)?;
    Ok(Row {
        system: WeightSystem {
            degree: system.degree,
            weights,
        },
        tables,
        left: system.degree,
    })
}

/// The rows of weight systems beside exponents that are all 0.
pub(crate) fn rows_of(alloc: Global, systems: &[WeightSystem]) -> Result<Vec<Row>, NoMemory>
    requires { All (λ s. s.degree ≤ MOST_DEGREE) (weighted_all systems.now) }
    ensures systems { IfOk result (λ rows. systems_of rows.items ≡ weighted_all systems.now) }
    ensures fresh { IfOk result (λ rows. All IsFresh rows.items) }
{
    let mut rows = Vec::new(alloc);
    for system in systems {
        rows.push(row_of(alloc, system)?)?;
    }
    Ok(rows)
}
