//! Facets with rows: at which of the first 128 corners each vanishes.
ghost use Rattle.std.specs.Prelude.{◌≡◌, ◌≢◌, ◌^◌, ◌<◌, ◌≤◌, [], ◌∷◌, ◌++◌, length, nat_abs, pos, IfOk, OnOk};
ghost use Rattle.std.specs.List.{All};
ghost use Rattle.lattice_theory.specs.Vector.{HaveDimension};
ghost use Rattle.lattice_theory.specs.Size.{absolute_sum};
ghost use Rattle.bit_rows.specs.declared.row.TheConstants.{MOST_INDICES};
ghost use Rattle.hull_growth.specs.steps.Rows.{AddsIndex, IsCornerRow, AreCornerRows};

use bit_rows::{BitRow, MOST_INDICES};
use lattice_core::{Functional, NoMemory, Point};
use std::alloc::Global;

/// Functions, and for each the row of the corners at which it vanishes, at the same place.
#[derive(Drop)]
pub(crate) struct FacetRows {
    pub(crate) functions: Vec<Functional>,
    pub(crate) rows: Vec<BitRow>,
}

impl FacetRows {
    /// One function more, with its row. After an error the two lists may differ.
    pub(crate) fn add(&mut self, function: Functional, row: BitRow) -> Result<(), NoMemory>
        ensures functions { OnOk result (self.new.functions.items ≡ self.old.functions.items ++ (function ∷ [])) }
        ensures rows { OnOk result (self.new.rows.items ≡ self.old.rows.items ++ (row ∷ [])) }
    {
        self.functions.push(function)?;
        self.rows.push(row)?;
        Ok(())
    }
}

/// The row with one more corner, at the place, at which the function has the value. From the place 128 on a corner has no place in it.
pub(crate) fn row_with(row: BitRow, place: usize, value: i128) -> BitRow
    ensures set { value ≡ pos 0 → place < MOST_INDICES → AddsIndex row place result }
    ensures same { value ≢ pos 0 → result ≡ row }
    ensures full { MOST_INDICES ≤ place → result ≡ row }
{
    if value == 0 && place < MOST_INDICES {
        let mut more = row;
        more.add(place);
        return more;
    }
    row
}

/// The row of a function.
fn corner_row(corners: &[Point], f: &Functional) -> BitRow
    requires dimension { HaveDimension (length f.now.normal) corners.now }
    requires small { All (λ c. absolute_sum c ≤ 2 ^ 30) corners.now }
    requires constant { nat_abs f.now.constant ≤ 2 ^ 100 }
    ensures { IsCornerRow corners.now f.now result }
{
    let mut row = BitRow::empty();
    for i in 0..corners.len() {
        row = row_with(row, i, f.at(&corners[i]));
    }
    row
}

/// The rows of functions.
pub(crate) fn rows_of(
    alloc: Global,
    corners: &[Point],
    functions: &[Functional],
) -> Result<Vec<BitRow>, NoMemory>
    requires dimension { All (λ f. HaveDimension (length f.normal) corners.now) functions.now }
    requires small { All (λ c. absolute_sum c ≤ 2 ^ 30) corners.now }
    requires constants { All (λ f. nat_abs f.constant ≤ 2 ^ 100) functions.now }
    ensures { IfOk result (λ rows. AreCornerRows corners.now functions.now rows.items) }
{
    let mut rows = Vec::with_capacity(alloc, functions.len())?;
    for f in functions {
        rows.push(corner_row(corners, f))?;
    }
    Ok(rows)
}
