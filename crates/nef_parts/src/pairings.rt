//! At which normals a vector pairs to -1, and at which it isn't above 0, as rows of bits.

ghost use Rattle.std.specs.Prelude.{◌≡◌, ◌⊎◌, ◌↔◌, ℕ, ◌<◌, ◌≤◌, ◌^◌, negsuc, pos, length, ◌≤ℤ◌, IsTrue, IfOk};
ghost use Rattle.std.specs.List.{All};
ghost use Rattle.lattice_theory.specs.Size.{absolute_sum};
ghost use Rattle.lattice_theory.specs.Vector.{dot};
ghost use Rattle.bit_rows.specs.Rows.{HasIndex};
ghost use Rattle.bit_rows.specs.declared.row.TheConstants.{MOST_INDICES};
ghost use Rattle.nef_parts.specs.steps.Rows.{IsPairable, IsPairings, ArePairings};

use bit_rows::BitRow;
use lattice_core::{NoMemory, Point, pair};
use std::alloc::Global;

/// Two sets of places of normals: those to which a vector pairs to -1, and those to which it pairs to 0 or less.
#[derive(Clone, Copy)]
pub(crate) struct Pairings {
    pub(crate) tight: BitRow,
    pub(crate) low: BitRow,
}

/// What is asked of one pairing: whether it is -1, and whether it is 0 or less.
#[derive(Clone, Copy)]
struct Height {
    tight: bool,
    low: bool,
}

/// The height of a vector over a normal.
#[inline]
fn height_of(x: &Point, normal: &Point) -> Height
    requires dimension { length normal.now ≡ length x.now }
    requires small { absolute_sum normal.now ≤ 2 ^ 60 }
    ensures tight { IsTrue result.tight ↔ (dot x.now normal.now ≡ negsuc 0) }
    ensures low { IsTrue result.low ↔ (dot x.now normal.now ≤ℤ pos 0) }
{
    let pairing = pair(x.entries(), normal.entries());
    Height {
        tight: pairing == -1,
        low: pairing <= 0,
    }
}

/// Puts a number into the set where the condition holds.
#[inline]
fn add_where(row: &mut BitRow, index: usize, holds: bool)
    requires { index < MOST_INDICES }
    ensures { (other : ℕ) → HasIndex row.new other ↔ (HasIndex row.old other ⊎ ((other ≡ index) × IsTrue holds)) }
{
    if holds {
        row.add(index);
    }
}

/// The rows of a vector.
pub(crate) fn pairings_of(x: &Point, normals: &[Point]) -> Pairings
    requires { IsPairable normals.now x.now }
    ensures { IsPairings normals.now x.now result }
{
    let mut tight = BitRow::empty();
    let mut low = BitRow::empty();
    for e in 0..normals.len() {
        let height = height_of(x, &normals[e]);
        add_where(&mut tight, e, height.tight);
        add_where(&mut low, e, height.low);
    }
    Pairings { tight, low }
}

/// The rows of each of the vectors, in order.
pub(crate) fn all_pairings(
    alloc: Global,
    points: &[Point],
    normals: &[Point],
) -> Result<Vec<Pairings>, NoMemory>
    requires { All (IsPairable normals.now) points.now }
    ensures { IfOk result (λ rows. ArePairings (length points.now) normals.now points.now rows.items) }
{
    let mut rows = Vec::with_capacity(alloc, points.len())?;
    for p in 0..points.len() {
        rows.push(pairings_of(&points[p], normals))?;
    }
    Ok(rows)
}
