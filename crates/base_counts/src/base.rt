//! The base of a point.
ghost use Rattle.std.specs.Prelude.{◌≡◌, ◌↔◌, ◌⊎◌, ◌*◌, ◌^◌, ◌<◌, ◌≤◌, length, nat_abs, neg_ℤ, pos, ◌+ℤ◌, IsTrue};
ghost use Rattle.std.specs.List.{All};
ghost use Rattle.lattice_theory.specs.Vector.{dot, entry};
ghost use Rattle.lattice_theory.specs.Size.{absolute_sum};
ghost use Rattle.face_theory.specs.Pairings.{is_zero, function_at};
ghost use Rattle.lattice_core.specs.declared.limits.TheConstants.{MOST_COORDINATES};
ghost use Rattle.incidence.specs.Incidences.{HasExactly};
ghost use Rattle.cayley_theory.specs.Counts.{sum_of};
ghost use Rattle.cayley_theory.specs.Bases.{part_in, pairing_with};
ghost use Rattle.base_counts.specs.Tops.{AreOfParts, HaveSmallEntries, IsRaisedTo, IsTopOf};

use incidence::put_bit;
use lattice_core::{Functional, Point, pair};

/// What stands for no height: it is below all heights that are worked out.
pub const LOWEST: i128 = -1_267_650_600_228_229_401_496_703_205_376;

/// The part of a vector that is kept with it.
pub fn part_of(f: &Functional) -> usize
    requires { part_in f.now < 2 ^ 32 }
    ensures { result ≡ part_in f.now }
{
    f.constant().unsigned_abs() as usize
}

/// Lets the height of the vector's part be at least the one with which the vector pairs to 0.
fn raise(base: &mut [i128], f: &Functional, x: &Point)
    requires dimension { length f.now.normal ≡ length x.now }
    requires part { part_in f.now < length base.old }
    requires few { length base.old ≤ 3 }
    requires small { absolute_sum x.now ≤ 2 ^ 33 }
    ensures { IsRaisedTo (part_in f.now) (neg_ℤ (dot f.now.normal x.now)) base.old base.new }
{
    let height = -pair(f.normal(), x.entries());
    let part = part_of(f);
    if base[part] < height {
        base[part] = height;
    }
}

/// The base of a point: for each part the least height with which the point pairs nonnegatively with all vectors of the part, where there are any.
pub fn base_into(base: &mut [i128], vectors: &[Functional], x: &Point)
    requires vectors { AreOfParts (length x.now) (length base.old) vectors.now }
    requires few { length base.old ≤ 3 }
    requires small { absolute_sum x.now ≤ 2 ^ 33 }
    ensures whole { length base.new ≡ length base.old }
    ensures top { IsTopOf vectors.now x.now (length vectors.now) base.new }
{
    base.fill(LOWEST);
    for i in 0..vectors.len() {
        raise(base, &vectors[i], x);
    }
}

/// The sum of two numbers.
fn sum(a: i128, b: i128) -> i128
    requires left { nat_abs a ≤ 2 ^ 102 }
    requires right { nat_abs b ≤ 2 ^ 102 }
    ensures { result ≡ a +ℤ b }
{
    a + b
}

/// The sum of the heights of at most 3 parts.
pub fn degree_of(base: &[i128]) -> i128
    requires few { length base.now ≤ 3 }
    requires small { HaveSmallEntries base.now }
    ensures { result ≡ sum_of base.now }
{
    let mut degree = 0;
    for height in base {
        degree = sum(degree, *height);
    }
    degree
}

/// Whether the vector pairs to 0 with the point and the heights.
fn is_reached(f: &Functional, x: &Point, base: &[i128]) -> bool
    requires dimension { length f.now.normal ≡ length x.now }
    requires part { part_in f.now < length base.now }
    requires few { length base.now ≤ 3 }
    requires small { absolute_sum x.now ≤ 2 ^ 33 }
    requires heights { HaveSmallEntries base.now }
    ensures { IsTrue result ↔ (dot f.now.normal x.now +ℤ entry base.now (part_in f.now) ≡ pos 0) }
{
    pair(f.normal(), x.entries()) + base[part_of(f)] == 0
}

/// Makes words tell the vectors that pair to 0 with the point and the heights.
pub fn tight_into(words: &mut [u64], vectors: &[Functional], x: &Point, base: &[i128])
    requires room { length vectors.now ≤ 64 * length words.old }
    requires vectors { AreOfParts (length x.now) (length base.now) vectors.now }
    requires few { length base.now ≤ 3 }
    requires small { absolute_sum x.now ≤ 2 ^ 33 }
    requires heights { HaveSmallEntries base.now }
    ensures whole { length words.new ≡ length words.old }
    ensures bits { HasExactly (length vectors.now) (λ i. is_zero (pairing_with vectors.now x.now base.now i)) words.new }
{
    words.fill(0);
    for i in 0..vectors.len() {
        if is_reached(&vectors[i], x, base) {
            put_bit(words, i);
        }
    }
}
