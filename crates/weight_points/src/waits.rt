//! How often a weight is taken before the weights behind it can take exactly what is left.

ghost use Rattle.std.specs.Prelude.{◌≡◌, ◌↔◌, ℕ, ◌+◌, ◌<◌, ◌≤◌, List, [], length, map, IfOk};
ghost use Rattle.lattice_core.specs.declared.limits.TheConstants.{MOST_DEGREE};
ghost use Rattle.weight_points.specs.declared.waits.TheConstants.{NEVER};
ghost use Rattle.weight_points.specs.steps.Waits.{CanTake, IsReach, IsWait, AreWaits, AreTables};

use lattice_core::NoMemory;
use std::alloc::Global;

/// What tables tell of a number that the weights don't take. It is above all degrees.
pub const NEVER: u16 = 65_535;

/// What a table of no weights tells of a number.
fn wait_of_none(number: usize) -> u16
    ensures { (result < NEVER) ↔ CanTake [] number }
{
    if number == 0 { 0 } else { NEVER }
}

/// Of the numbers up to the degree, no weights take 0 alone.
fn waits_of_none(alloc: Global, degree: usize) -> Result<Vec<u16>, NoMemory>
    requires { degree ≤ MOST_DEGREE }
    ensures reach { IfOk result (λ waits. IsReach [] waits.items) }
    ensures columns { IfOk result (λ waits. length waits.items ≡ degree + 1) }
{
    let mut waits = Vec::with_capacity(alloc, degree + 1)?;
    for number in 0..degree + 1 {
        waits.push(wait_of_none(number))?;
    }
    Ok(waits)
}

/// How often the weight is taken before those behind it take exactly what is left of the number, where that is known of the smaller numbers.
fn wait(behind: &[u16], waits: &[u16], weight: usize, number: usize) -> u16
    requires number { number < length behind.now }
    requires before { length waits.now ≡ number }
    ensures { (weights : List ℕ) → IsReach weights behind.now → AreWaits weight weights waits.now → IsWait weight weights number result }
{
    if behind[number] < NEVER {
        return 0;
    }
    if weight == 0 || weight > number {
        return NEVER;
    }
    let before = waits[number - weight];
    if before < NEVER { before + 1 } else { NEVER }
}

/// The same for all numbers of the table.
fn waits_before(alloc: Global, behind: &[u16], weight: usize) -> Result<Vec<u16>, NoMemory>
    ensures waits { IfOk result (λ waits. (weights : List ℕ) → IsReach weights behind.now → AreWaits weight weights waits.items) }
    ensures columns { IfOk result (λ waits. length waits.items ≡ length behind.now) }
{
    let mut waits = Vec::with_capacity(alloc, behind.len())?;
    for number in 0..behind.len() {
        let next = wait(behind, &waits, weight, number);
        waits.push(next)?;
    }
    Ok(waits)
}

/// How often the weight at each place is taken at least before the weights behind it take exactly what is left, or `NEVER` where they don't, for
/// each number up to the degree, which is within its limit. The table of no weights comes first, then that of the last place. This project's own.
pub fn waits_of(alloc: Global, weights: &[u64], degree: u64) -> Result<Vec<Vec<u16>>, NoMemory>
    requires { degree ≤ MOST_DEGREE }
    ensures { IfOk result (λ tables. AreTables weights.now degree (map (λ waits. waits.items) tables.items)) }
{
    let mut tables = Vec::with_capacity(alloc, weights.len() + 1)?;
    tables.push(waits_of_none(alloc, degree as usize)?)?;
    for i in (0..weights.len()).rev() {
        let next = waits_before(alloc, &tables[weights.len() - 1 - i], weights[i] as usize)?;
        tables.push(next)?;
    }
    Ok(tables)
}

#[cfg(test)]
mod tests {
    use super::*;
    use std::test::Fail;

    #[test]
    fn tells_how_often_each_weight_is_taken(rt: HostRuntime) -> Result<(), Fail> {
        let tables = waits_of(rt.alloc(), &[1, 2, 3], 4)?;
        assert_eq!(rt; tables.len(), 4);
        assert_eq!(rt;
            tables[1].as_slice(),
            [0, NEVER, NEVER, 1, NEVER].as_slice()
        );
        assert_eq!(rt; tables[2].as_slice(), [0, NEVER, 1, 0, 2].as_slice());
        assert_eq!(rt; tables[3].as_slice(), [0, 1, 0, 0, 0].as_slice());
        Ok(())
    }
}
