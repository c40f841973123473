//! The signs of functions at points.
ghost use Rattle.std.specs.Prelude.{◌≡◌, ◌↔◌, ◌^◌, ◌≤◌, length, pos, ◌≤ℤ◌, nat_abs, OnOk, IsTrue};
ghost use Rattle.std.specs.List.{All};
ghost use Rattle.lattice_theory.specs.Vector.{HaveDimension};
ghost use Rattle.lattice_theory.specs.Affine.{value};
ghost use Rattle.lattice_theory.specs.Size.{absolute_sum};
ghost use Rattle.hull_growth.specs.steps.Values.{AreValuesAt};

use lattice_core::{Functional, NoMemory, Point};

/// Whether no function is negative at the point.
pub(crate) fn are_nonnegative_at(functions: &[Functional], p: &Point) -> bool
    requires same { All (λ f. length f.normal ≡ length p.now) functions.now }
    requires constants { All (λ f. nat_abs f.constant ≤ 2 ^ 100) functions.now }
    requires small { absolute_sum p.now ≤ 2 ^ 30 }
    ensures { IsTrue result ↔ All (λ f. pos 0 ≤ℤ value f p.now) functions.now }
{
    functions.iter().all(|f| f.at(p) >= 0)
}

/// Puts the functions' values at the point, in their order, in the place of what the list held.
pub(crate) fn values_at(
    functions: &[Functional],
    p: &Point,
    values: &mut Vec<i128>,
) -> Result<(), NoMemory>
    requires same { All (λ f. length f.normal ≡ length p.now) functions.now }
    requires constants { All (λ f. nat_abs f.constant ≤ 2 ^ 100) functions.now }
    requires small { absolute_sum p.now ≤ 2 ^ 30 }
    ensures { OnOk result (AreValuesAt p.now functions.now values.new.items) }
{
    values.clear();
    for f in functions {
        values.push(f.at(p))?;
    }
    Ok(())
}

/// Whether the last function vanishes at each corner at which the two others do.
pub(crate) fn vanishes_with_both(
    corners: &[Point],
    f: &Functional,
    g: &Functional,
    h: &Functional,
) -> bool
    requires dimension { HaveDimension (length f.now.normal) corners.now }
    requires second { length g.now.normal ≡ length f.now.normal }
    requires third { length h.now.normal ≡ length f.now.normal }
    requires small { All (λ c. absolute_sum c ≤ 2 ^ 30) corners.now }
    requires constant_f { nat_abs f.now.constant ≤ 2 ^ 100 }
    requires constant_g { nat_abs g.now.constant ≤ 2 ^ 100 }
    requires constant_h { nat_abs h.now.constant ≤ 2 ^ 100 }
    ensures { IsTrue result ↔ All (λ c. value f.now c ≡ pos 0 → value g.now c ≡ pos 0 → value h.now c ≡ pos 0) corners.now }
{
    corners
        .iter()
        .all(|c| f.at(c) != 0 || g.at(c) != 0 || h.at(c) == 0)
}
