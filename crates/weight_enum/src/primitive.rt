//! Greatest common divisors of weights.
ghost use Rattle.std.specs.Prelude.{◌≡◌, ◌↔◌, ◌≤◌, length, map, pos, IsTrue};
ghost use Rattle.lattice_theory.specs.Vector.{IsPrimitive};
ghost use Rattle.lattice_core.specs.declared.limits.TheConstants.{MOST_COORDINATES};

use arrayvec::ArrayVec;
use lattice_core::{MOST_COORDINATES, primitive};

/// The weights as integers.
fn integers(weights: &[u64]) -> ArrayVec<i128, MOST_COORDINATES>
    requires { length weights.now ≤ MOST_COORDINATES }
    ensures { result.items ≡ map pos weights.now }
{
    let mut integers = ArrayVec::new();
    for w in weights {
        integers.push(i128::from(*w));
    }
    integers
}

/// Whether the greatest common divisor of the weights, of which there are 1 to 6, is 1.
pub(crate) fn is_primitive(weights: &[u64]) -> bool
    requires least { 1 ≤ length weights.now }
    requires most { length weights.now ≤ MOST_COORDINATES }
    ensures { IsTrue result ↔ IsPrimitive (map pos weights.now) }
{
    let vector = integers(weights);
    match primitive(&vector) {
        Some(part) => part.as_slice() == vector.as_slice(),
        None => false,
    }
}
