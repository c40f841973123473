//! The functions that vanish at a point, as a row of bits.

ghost use Rattle.std.specs.Prelude.{◌≡◌, ◌≤◌, length};
ghost use Rattle.std.specs.List.{All};
ghost use Rattle.bit_rows.specs.declared.row.TheConstants.{MOST_INDICES};
ghost use Rattle.lattice_core.specs.ValueWidths.{FitsWidth};
ghost use Rattle.hull.specs.steps.Tight.{IsTightRow};

use bit_rows::BitRow;
use lattice_core::{Functional, Point, Width};

/// The places of the functions that vanish at the point. There are at most 128 functions, and values are worked out in a width that they and the
/// point fit.
pub(crate) fn tight_row(functions: &[Functional], p: &Point, width: Width) -> BitRow
    requires few { length functions.now ≤ MOST_INDICES }
    requires dimension { All (λ f. length f.normal ≡ length p.now) functions.now }
    requires fits { All (λ f. FitsWidth width f p.now) functions.now }
    ensures { IsTightRow functions.now p.now result }
{
    let mut row = BitRow::empty();
    for i in 0..functions.len() {
        if functions[i].value_at(p, width) == 0 {
            row.add(i);
        }
    }
    row
}
