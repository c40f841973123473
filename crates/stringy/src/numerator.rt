//! The numerator of the stringy numbers, face by face.
ghost use Rattle.std.specs.Prelude.{◌≡◌, ◌↔◌, ℕ, ◌^◌, ◌<◌, ◌≤◌, ℤ, pos, ◌+ℤ◌, nat_abs, length, IsTrue};
ghost use Rattle.lattice_theory.specs.Vector.{entry};
ghost use Rattle.small_poly.specs.Tables.{laurent_of};
ghost use Rattle.stringy_theory.specs.Stringy.{numerator};
ghost use Rattle.dual_pair.specs.declared.side.Side.TheVariants as Side;
ghost use Rattle.poset_g.specs.Numbered.{HasAllFaces, HasSmallRanks};
ghost use Rattle.poset_g.specs.Values.{HoldsG, AreSmall};
ghost use Rattle.stringy.specs.RowSteps.{row_at, with_series, tilde_of, face_term, AreRows};

use crate::stars::polynomial_of;
use crate::tilde::tilde_row;
use dual_pair::Side;
use face_poset::FaceTable;
use poset_g::GTable;
use small_poly::{Poly1, Poly2};

/// S~ of a face on a side, from the rows of all faces.
pub(crate) fn tilde(table: &FaceTable, g: &GTable, rows: &[i32], side: Side, face: u32) -> Poly1
    requires face { face < length table.now.faces }
    requires faces { HasAllFaces table.now }
    requires ranks { HasSmallRanks table.now }
    requires holds { HoldsG table.now g.now }
    requires small { AreSmall table.now }
    requires rows { AreRows table.now side rows.now }
    ensures value { (k : ℕ) → entry result k ≡ tilde_of table.now side (row_at rows.now) face k }
    ensures small { (k : ℕ) → nat_abs (entry result k) ≤ 2 ^ 54 }
{
    polynomial_of(&tilde_row(table, g, rows, side, face))
}

/// Whether all numbers of a row are 0.
fn is_nothing(row: &[i64]) -> bool
    ensures { IsTrue result ↔ ((k : ℕ) → entry row.now k ≡ pos 0) }
{
    for k in 0..row.len() {
        if row[k] != 0 {
            return false;
        }
    }
    true
}

/// Adds what a face adds to the numerator: nothing where S~ is 0 on either side.
fn add_face_term(
    sum: &mut Poly2,
    table: &FaceTable,
    g: &GTable,
    inner: &[i32],
    outer: &[i32],
    face: u32,
)
    requires face { face < length table.now.faces }
    requires faces { HasAllFaces table.now }
    requires ranks { HasSmallRanks table.now }
    requires holds { HoldsG table.now g.now }
    requires small { AreSmall table.now }
    requires inner { AreRows table.now Side.M inner.now }
    requires outer { AreRows table.now Side.N outer.now }
    requires sum { (p q : ℕ) → nat_abs (laurent_of sum.old (pos p) q) ≤ 2 ^ 124 }
    ensures value { (p : ℤ) (q : ℕ) → laurent_of sum.new p q ≡ laurent_of sum.old p q +ℤ face_term table.now (row_at inner.now) (row_at outer.now) p q face }
    ensures small { (p q : ℕ) → nat_abs (face_term table.now (row_at inner.now) (row_at outer.now) (pos p) q face) ≤ 2 ^ 108 }
{
    let left = tilde_row(table, g, inner, Side::M, face);
    if is_nothing(&left) {
        return;
    }
    let right = tilde_row(table, g, outer, Side::N, face);
    if is_nothing(&right) {
        return;
    }
    let rank = table.rank(face) as usize;
    let (left, right) = (polynomial_of(&left), polynomial_of(&right));
    sum.add_term(rank % 2 == 1, rank, &left, &right);
}

/// The numerator, from the rows of all faces on both sides.
pub(crate) fn numerator_of(table: &FaceTable, g: &GTable, inner: &[i32], outer: &[i32]) -> Poly2
    requires faces { HasAllFaces table.now }
    requires ranks { HasSmallRanks table.now }
    requires holds { HoldsG table.now g.now }
    requires small { AreSmall table.now }
    requires inner { AreRows table.now Side.M inner.now }
    requires outer { AreRows table.now Side.N outer.now }
    ensures value { (p : ℤ) (q : ℕ) → laurent_of result p q ≡ numerator (with_series table.now (row_at inner.now) (row_at outer.now)) p q }
    ensures small { (p q : ℕ) → nat_abs (laurent_of result (pos p) q) ≤ 2 ^ 120 }
{
    let mut sum = Poly2::zero();
    for face in 0..table.len() {
        add_face_term(&mut sum, table, g, inner, outer, face);
    }
    sum
}
