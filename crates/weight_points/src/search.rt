//! The search for the next vector of exponents. It goes on from a beginning only where the further weights of each system can take exactly
//! what is left of its degree.

ghost use Rattle.std.specs.Prelude.{◌≡◌, ◌<◌, ◌≤◌, length, map, pos, false, slice_set};
ghost use Rattle.std.specs.List.{All};
ghost use Rattle.lattice_theory.specs.Grid.{Follows};
ghost use Rattle.lattice_core.specs.Weights.{IsMonomial};
ghost use Rattle.lattice_core.specs.declared.limits.TheConstants.{MOST_DEGREE};
ghost use Rattle.weight_points.specs.steps.Rows.{systems_of, AreRows, IsAffordable, spending, returning};
ghost use Rattle.weight_points.specs.steps.Search.{exponent, IsZeroFrom, Completes};

use crate::rows::{Row, give_back, next_value, spend};
use lattice_core::MOST_DEGREE;

/// Writes an affordable value over the exponent 0 at the place.
fn put(rows: &mut [Row], entries: &mut [u64], place: usize, value: u64)
    requires ready { AreRows rows.old entries.old }
    requires place { place < length entries.old }
    requires zero { exponent entries.old place ≡ 0 }
    requires affordable { All (IsAffordable place value) rows.old }
    ensures rows { rows.new ≡ map (spending place value) rows.old }
    ensures entries { entries.new ≡ slice_set entries.old place value }
    ensures ready { AreRows rows.new entries.new }
{
    spend(rows, place, value);
    entries[place] = value;
}

/// Writes 0 over the exponent at the place, and answers what stood there.
fn clear(rows: &mut [Row], entries: &mut [u64], place: usize) -> u64
    requires ready { AreRows rows.old entries.old }
    requires place { place < length entries.old }
    ensures value { result ≡ exponent entries.old place }
    ensures rows { rows.new ≡ map (returning place result) rows.old }
    ensures entries { entries.new ≡ slice_set entries.old place 0 }
    ensures ready { AreRows rows.new entries.new }
    ensures bound { result ≤ MOST_DEGREE }
{
    let value = entries[place];
    give_back(rows, place, value);
    entries[place] = 0;
    value
}

/// Completes a beginning, behind which all exponents are 0, by exponents from the place on, of which the first is at least `from`. It finds
/// the first completion in lexicographic order, or changes no exponent where there is none.
fn complete(rows: &mut [Row], entries: &mut [u64], place: usize, from: u64) -> bool
    requires ready { AreRows rows.old entries.old }
    requires place { place < length entries.old }
    requires zeros { IsZeroFrom place entries.old }
    ensures systems { systems_of rows.new ≡ systems_of rows.old }
    ensures ready { AreRows rows.new entries.new }
    ensures kept { result ≡ false → rows.new ≡ rows.old }
    ensures completes { Completes (systems_of rows.old) place from entries.old entries.new result }
{
    let mut value = from;
    while value <= MOST_DEGREE {
        let Some(next) = next_value(rows, place, value) else {
            return false;
        };
        put(rows, entries, place, next);
        if place + 1 == entries.len() || complete(rows, entries, place + 1, 0) {
            return true;
        }
        clear(rows, entries, place);
        value = next + 1;
    }
    false
}

/// Moves to the first vector of exponents that comes after this one and takes all degrees. Where there is none, the place is lost.
pub(crate) fn advance(rows: &mut [Row], entries: &mut [u64]) -> bool
    requires { AreRows rows.old entries.old }
    ensures systems { systems_of rows.new ≡ systems_of rows.old }
    ensures ready { AreRows rows.new entries.new }
    ensures follows { Follows (IsMonomial (systems_of rows.old)) (map pos entries.old) (map pos entries.new) result }
{
    for place in (0..entries.len()).rev() {
        let passed = clear(rows, entries, place);
        if complete(rows, entries, place, passed + 1) {
            return true;
        }
    }
    false
}
