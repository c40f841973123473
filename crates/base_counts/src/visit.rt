//! The visit of one point.
ghost use Rattle.std.specs.Prelude.{◌≡◌, ◌*◌, ◌^◌, ◌<◌, ◌≤◌, length, MatchOption};
ghost use Rattle.lattice_theory.specs.Size.{absolute_sum};
ghost use Rattle.base_counts.specs.Tops.{AreOfParts};
ghost use Rattle.base_counts.specs.Laws.{HaveAllParts};
ghost use Rattle.base_counts.specs.Visited.{IsFar, IsTightAt};
ghost use Rattle.base_counts.specs.declared.counts.TheConstants.{DEGREES};

use crate::base::{base_into, degree_of, tight_into};
use crate::counts::DEGREES;
use lattice_core::{Functional, Point};

/// The degree of the base of a point, if that is told apart; then `tight` tells the vectors that pair to 0 with the point and its base. `base` has a
/// height for each part, and `tight` words for the vectors: both are written over.
pub fn tight_at(
    tight: &mut [u64],
    base: &mut [i128],
    vectors: &[Functional],
    x: &Point,
) -> Option<usize>
    requires vectors { AreOfParts (length x.now) (length base.old) vectors.now }
    requires parts { HaveAllParts (length base.old) vectors.now }
    requires few { length base.old ≤ 3 }
    requires small { absolute_sum x.now ≤ 2 ^ 33 }
    requires wide { length vectors.now ≤ 64 * length tight.old }
    ensures tight { length tight.new ≡ length tight.old }
    ensures base { length base.new ≡ length base.old }
    ensures degree { MatchOption result (IsFar (length base.old) vectors.now x.now)
        (λ l. (l < DEGREES) × IsTightAt (length base.old) vectors.now x.now l tight.new) }
{
    base_into(base, vectors, x);
    let degree = degree_of(base);
    if degree < 0 || degree >= DEGREES as i128 {
        return None;
    }
    tight_into(tight, vectors, x, base);
    Some(degree as usize)
}
