//! Certificates against.
ghost use Rattle.std.specs.Prelude.{◌≡◌, ◌↔◌, ◌≤ℤ◌, length, pos, IsTrue};
ghost use Rattle.std.specs.List.{All};
ghost use Rattle.lattice_theory.specs.Vector.{HaveDimension, dot};
ghost use Rattle.lattice_core.specs.ValueWidths.{IsNarrowAt};
ghost use Rattle.interior_point_theory.specs.Certificates.{IsRefuter};

use lattice_core::{Functional, Point};

/// Whether all entries are 0.
fn is_zero(vector: &[i64]) -> bool
    ensures { IsTrue result ↔ All (λ a. a ≡ pos 0) vector.now }
{
    vector.iter().all(|a| *a == 0)
}

/// Whether a function with the constant 0 isn't negative at any point.
fn is_nonnegative(points: &[Point], f: &Functional) -> bool
    requires linear { f.now.constant ≡ pos 0 }
    requires dimension { HaveDimension (length f.now.normal) points.now }
    requires narrow { All (IsNarrowAt f.now) points.now }
    ensures { IsTrue result ↔ All (λ y. pos 0 ≤ℤ dot f.now.normal y) points.now }
{
    points.iter().all(|p| f.narrow_at(p) >= 0)
}

/// Whether a linear function, which has the constant 0, refutes that the points are around the origin: it isn't 0, and is nonnegative on them.
/// The points have its dimension, and its values at them are so small that they are worked out in 64 bits. The first point with a negative value
/// ends it. This project's own.
pub fn is_refuter(points: &[Point], f: &Functional) -> bool
    requires linear { f.now.constant ≡ pos 0 }
    requires dimension { HaveDimension (length f.now.normal) points.now }
    requires narrow { All (IsNarrowAt f.now) points.now }
    ensures { IsTrue result ↔ IsRefuter (length f.now.normal) points.now f.now.normal }
{
    !is_zero(f.normal()) && is_nonnegative(points, f)
}
