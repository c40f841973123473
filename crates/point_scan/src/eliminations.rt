//! Directions in which one coordinate falls out of two functions.

ghost use Rattle.std.specs.Prelude.{◌≡◌, ◌<◌, ◌≤◌, length, IfSome};
ghost use Rattle.point_scan.specs.ProjectionSteps.{IsElimination};
ghost use Rattle.lattice_core.specs.declared.limits.TheConstants.{MOST_COORDINATES};

use arrayvec::ArrayVec;
use lattice_core::{MOST_COORDINATES, primitive};

/// The sum of positive multiples of two normals, of which the first rises and the second falls at the place `k`, in which that place is 0. Its
/// entries have no common divisor. It is `None` where some number on the way doesn't fit 64 bits, or the sum is 0.
pub(crate) fn eliminated(
    rising: &[i64],
    falling: &[i64],
    k: usize,
) -> Option<ArrayVec<i64, MOST_COORDINATES>>
    requires same_length { length falling.now ≡ length rising.now }
    requires most { length rising.now ≤ MOST_COORDINATES }
    requires place { k < length rising.now }
    ensures { IfSome result (λ normal. IsElimination rising.now falling.now k normal.items) }
{
    let mut sums = ArrayVec::<i128, MOST_COORDINATES>::new();
    for i in 0..rising.len() {
        let first = rising[k].checked_mul(falling[i])?;
        let second = falling[k].checked_mul(rising[i])?;
        sums.push(i128::from(first.checked_sub(second)?));
    }
    held(&primitive(&sums)?)
}

/// The same entries in 64 bits, or `None` where they don't fit.
fn held(entries: &[i128]) -> Option<ArrayVec<i64, MOST_COORDINATES>>
    requires { length entries.now ≤ MOST_COORDINATES }
    ensures { IfSome result (λ normal. normal.items ≡ entries.now) }
{
    let mut normal = ArrayVec::<i64, MOST_COORDINATES>::new();
    for entry in entries {
        normal.push(i64::try_from(*entry).ok()?);
    }
    Some(normal)
}
