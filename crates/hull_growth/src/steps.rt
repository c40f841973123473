//! The facets with one more point: those that aren't negative at it, and the combinations of two that meet in a ridge.
ghost use Rattle.std.specs.Prelude.{◌≡◌, ℕ, ◌<◌, ◌++◌, ◌∷◌, [], length, pos, ◌<ℤ◌, slice_index_or, OnOk};
ghost use Rattle.lattice_theory.specs.Affine.{Affine, value};
ghost use Rattle.ridge_theory.specs.Ridges.{IsRidge};
ghost use Rattle.hull_growth.specs.steps.Rows.{AreCornerRows};
ghost use Rattle.hull_growth.specs.steps.Values.{AreValuesAt};
ghost use Rattle.hull_growth.specs.steps.Growing.{IsGrowthStep, IsAddedCombination, Appends, kept_at, IsNewWith, IsNewOf};

use crate::ridges::is_ridge;
use crate::rows::{FacetRows, row_with};
use lattice_core::{Functional, NoMemory, Point, combine};

/// Adds the facets that aren't negative at the point.
pub(crate) fn add_kept(
    corners: &[Point],
    facets: &FacetRows,
    values: &[i128],
    p: &Point,
    grown: &mut FacetRows,
) -> Result<(), NoMemory>
    requires step { IsGrowthStep corners.now facets.now.functions.items facets.now.rows.items p.now }
    requires values { AreValuesAt p.now facets.now.functions.items values.now }
    requires rows { AreCornerRows (corners.now ++ (p.now ∷ [])) grown.old.functions.items grown.old.rows.items }
    ensures functions { OnOk result (grown.new.functions.items ≡ grown.old.functions.items ++ kept_at p.now facets.now.functions.items) }
    ensures rows { OnOk result (AreCornerRows (corners.now ++ (p.now ∷ [])) grown.new.functions.items grown.new.rows.items) }
{
    for i in 0..facets.functions.len() {
        let value = values[i];
        if value >= 0 {
            let row = row_with(facets.rows[i], corners.len(), value);
            grown.add(facets.functions[i].copied(), row)?;
        }
    }
    Ok(())
}

/// Adds the combination of the facets at two places, which meet in a ridge.
fn add_combination(
    corners: &[Point],
    facets: &FacetRows,
    i: usize,
    j: usize,
    p: &Point,
    grown: &mut FacetRows,
) -> Result<(), NoMemory>
    requires step { IsGrowthStep corners.now facets.now.functions.items facets.now.rows.items p.now }
    requires rows { AreCornerRows (corners.now ++ (p.now ∷ [])) grown.old.functions.items grown.old.rows.items }
    requires first { i < length facets.now.functions.items }
    requires second { j < length facets.now.functions.items }
    requires before { (f : Affine) → f ≡ slice_index_or facets.now.functions.items i f → pos 0 <ℤ value f p.now }
    requires behind { (g : Affine) → g ≡ slice_index_or facets.now.functions.items j g → value g p.now <ℤ pos 0 }
    requires ridge { (f g : Affine) → f ≡ slice_index_or facets.now.functions.items i f → g ≡ slice_index_or facets.now.functions.items j g
        → IsRidge (length p.now) corners.now f g }
    ensures function { OnOk result ((f g : Affine) → f ≡ slice_index_or facets.now.functions.items i f → g ≡ slice_index_or facets.now.functions.items j g
        → IsAddedCombination f g p.now grown.old.functions.items grown.new.functions.items) }
    ensures rows { OnOk result (AreCornerRows (corners.now ++ (p.now ∷ [])) grown.new.functions.items grown.new.rows.items) }
{
    let both = facets.rows[i].meet(facets.rows[j]);
    let row = row_with(both, corners.len(), 0);
    let function = combine(&facets.functions[i], &facets.functions[j], p);
    grown.add(function, row)?;
    Ok(())
}

/// Adds the combinations of the facet at a place, which is positive at the point, and those that are negative there and meet it in a ridge.
fn add_new_with(
    corners: &[Point],
    facets: &FacetRows,
    values: &[i128],
    i: usize,
    p: &Point,
    grown: &mut FacetRows,
) -> Result<(), NoMemory>
    requires step { IsGrowthStep corners.now facets.now.functions.items facets.now.rows.items p.now }
    requires values { AreValuesAt p.now facets.now.functions.items values.now }
    requires rows { AreCornerRows (corners.now ++ (p.now ∷ [])) grown.old.functions.items grown.old.rows.items }
    requires first { i < length facets.now.functions.items }
    requires before { (f : Affine) → f ≡ slice_index_or facets.now.functions.items i f → pos 0 <ℤ value f p.now }
    ensures functions { OnOk result ((f : Affine) → f ≡ slice_index_or facets.now.functions.items i f
        → Appends (IsNewWith corners.now p.now f facets.now.functions.items) grown.old.functions.items grown.new.functions.items) }
    ensures rows { OnOk result (AreCornerRows (corners.now ++ (p.now ∷ [])) grown.new.functions.items grown.new.rows.items) }
{
    for j in 0..facets.functions.len() {
        if values[j] < 0 && is_ridge(corners, facets, i, j) {
            add_combination(corners, facets, i, j, p, grown)?;
        }
    }
    Ok(())
}

/// Adds all these combinations.
pub(crate) fn add_new(
    corners: &[Point],
    facets: &FacetRows,
    values: &[i128],
    p: &Point,
    grown: &mut FacetRows,
) -> Result<(), NoMemory>
    requires step { IsGrowthStep corners.now facets.now.functions.items facets.now.rows.items p.now }
    requires values { AreValuesAt p.now facets.now.functions.items values.now }
    requires rows { AreCornerRows (corners.now ++ (p.now ∷ [])) grown.old.functions.items grown.old.rows.items }
    ensures functions { OnOk result (Appends (IsNewOf corners.now p.now facets.now.functions.items facets.now.functions.items)
        grown.old.functions.items grown.new.functions.items) }
    ensures rows { OnOk result (AreCornerRows (corners.now ++ (p.now ∷ [])) grown.new.functions.items grown.new.rows.items) }
{
    for i in 0..facets.functions.len() {
        if values[i] > 0 {
            add_new_with(corners, facets, values, i, p, grown)?;
        }
    }
    Ok(())
}
