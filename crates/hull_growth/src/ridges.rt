//! Whether two facets meet in a ridge: no third one vanishes at each corner at which both vanish.
ghost use Rattle.std.specs.Prelude.{◌≡◌, ◌↔◌, ◌⊎◌, ◌<◌, ◌^◌, ◌≤◌, ℕ, length, nat_abs, slice_index_or, IsTrue};
ghost use Rattle.std.specs.List.{All};
ghost use Rattle.lattice_theory.specs.Affine.{Affine};
ghost use Rattle.lattice_theory.specs.Vector.{HaveDimension};
ghost use Rattle.lattice_theory.specs.Size.{absolute_sum};
ghost use Rattle.ridge_theory.specs.Ridges.{IsRidge};
ghost use Rattle.hull_growth.specs.steps.Rows.{AreCornerRows, NoThirdRow, NoThirdFunction};
ghost use Rattle.hull_growth.specs.steps.Growing.{IsHeld};
ghost use Rattle.bit_rows.specs.declared.row.TheConstants.{MOST_INDICES};

use crate::rows::FacetRows;
use crate::values::vanishes_with_both;
use bit_rows::{BitRow, MOST_INDICES};
use lattice_core::{Functional, Point};

/// Whether no third row contains the meet of the rows at two places.
fn is_alone_by_rows(rows: &[BitRow], i: usize, j: usize) -> bool
    requires first { i < length rows.now }
    requires second { j < length rows.now }
    ensures { IsTrue result ↔ NoThirdRow rows.now i j }
{
    let both = rows[i].meet(rows[j]);
    for k in 0..rows.len() {
        if both.is_part_of(rows[k]) && k != i && k != j {
            return false;
        }
    }
    true
}

/// Whether no third function vanishes at each corner at which the functions at two places do. The rows tell of the first 128 corners, and values
/// of those behind them.
fn is_alone_by_values(
    corners: &[Point],
    functions: &[Functional],
    rows: &[BitRow],
    i: usize,
    j: usize,
) -> bool
    requires first { i < length functions.now }
    requires second { j < length functions.now }
    requires rows { AreCornerRows corners.now functions.now rows.now }
    requires many { MOST_INDICES ≤ length corners.now }
    requires dimension { (n : ℕ) × HaveDimension n corners.now × All (λ f. length f.normal ≡ n) functions.now }
    requires small { All (λ c. absolute_sum c ≤ 2 ^ 30) corners.now }
    requires constants { All (λ f. nat_abs f.constant ≤ 2 ^ 100) functions.now }
    ensures { IsTrue result ↔ NoThirdFunction corners.now functions.now i j }
{
    let both = rows[i].meet(rows[j]);
    let behind = &corners[MOST_INDICES..];
    for k in 0..functions.len() {
        if both.is_part_of(rows[k])
            && k != i
            && k != j
            && vanishes_with_both(behind, &functions[i], &functions[j], &functions[k])
        {
            return false;
        }
    }
    true
}

/// Whether the facets at two places meet in a ridge. With at most 128 corners their rows tell.
pub(crate) fn is_ridge(corners: &[Point], facets: &FacetRows, i: usize, j: usize) -> bool
    requires held { (n : ℕ) × IsHeld n corners.now facets.now.functions.items facets.now.rows.items }
    requires first { i < length facets.now.functions.items }
    requires second { j < length facets.now.functions.items }
    ensures { (n : ℕ) (f g : Affine) → IsHeld n corners.now facets.now.functions.items facets.now.rows.items
        → f ≡ slice_index_or facets.now.functions.items i f → g ≡ slice_index_or facets.now.functions.items j g
        → IsTrue result ↔ IsRidge n corners.now f g }
{
    if corners.len() > MOST_INDICES {
        return is_alone_by_values(corners, &facets.functions, &facets.rows, i, j);
    }
    is_alone_by_rows(&facets.rows, i, j)
}
