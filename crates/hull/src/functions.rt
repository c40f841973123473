//! Affine functions with given normals through given points.

ghost use Rattle.std.specs.Prelude.{◌≡◌, ◌↔◌, ◌^◌, ◌<◌, ◌≤◌, length, pos, negsuc, neg_ℤ, nat_abs, IsTrue};
ghost use Rattle.std.specs.List.{All};
ghost use Rattle.lattice_theory.specs.Vector.{dot, scaled};
ghost use Rattle.lattice_theory.specs.Affine.{value};
ghost use Rattle.lattice_theory.specs.Size.{absolute_sum};
ghost use Rattle.hull.specs.Hyperplanes.{StartsPositive};

use arrayvec::ArrayVec;
use lattice_core::{Functional, MOST_COORDINATES, Point, narrowed};

/// The function with this normal that vanishes at the point.
pub(crate) fn function_at(normal: &[i128], p: &Point) -> Functional
    requires same { length normal.now ≡ length p.now }
    requires entries { All (λ a. nat_abs a < 2 ^ 63) normal.now }
    requires small { absolute_sum p.now ≤ 2 ^ 30 }
    ensures normal { result.normal ≡ normal.now }
    ensures constant { result.constant ≡ neg_ℤ (dot normal.now p.now) }
    ensures bound { nat_abs result.constant ≤ 2 ^ 96 }
{
    let coordinates = p.entries();
    Functional::through(narrowed(normal).as_slice(), coordinates)
}

/// The function with the opposite values.
pub(crate) fn opposite(f: &Functional) -> Functional
    requires entries { All (λ a. nat_abs a < 2 ^ 63) f.now.normal }
    requires constant { nat_abs f.now.constant ≤ 2 ^ 96 }
    ensures normal { result.normal ≡ scaled (negsuc 0) f.now.normal }
    ensures constant { result.constant ≡ neg_ℤ f.now.constant }
{
    let mut entries: ArrayVec<i64, MOST_COORDINATES> = ArrayVec::new();
    for entry in f.normal() {
        entries.push(-*entry);
    }
    match Functional::new(entries.as_slice(), -f.constant()) {
        Some(function) => function,
        None => unreachable!(),
    }
}

/// Whether the first entry that isn't 0 is positive.
pub(crate) fn starts_positive(normal: &[i64]) -> bool
    ensures { IsTrue result ↔ StartsPositive normal.now }
{
    for entry in normal {
        if *entry != 0 {
            return *entry > 0;
        }
    }
    false
}
