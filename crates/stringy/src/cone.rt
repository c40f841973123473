//! h*, S~ and the stringy numbers of a cone's faces.
ghost use Rattle.std.specs.Prelude.{◌≡◌, ℕ, ◌+◌, ◌*◌, ◌^◌, ◌<◌, ◌≤◌, ◌⊎◌, pos, ◌≤ℤ◌, nat_abs, length};
ghost use Rattle.std.specs.List.{All};
ghost use Rattle.lattice_theory.specs.Vector.{entry};
ghost use Rattle.polynomial_theory.specs.Series.{HasDegreeAtMost};
ghost use Rattle.poset_g.specs.Numbered.{HasAllFaces};
ghost use Rattle.poset_g.specs.Values.{HoldsG, AreSmall};
ghost use Rattle.stringy.specs.ConeNumbers.{points_of, AreCountsOf, IsHStar, IsSTilde, IsNumerator};
ghost use Rattle.stringy.specs.RowSteps.{row_at, degree_of, AreRows};
ghost use Rattle.stringy.specs.StarSteps.{IsStarRank};

use crate::counts::FaceNumbers;
use crate::numbers::EPoly;
use crate::numerator::{numerator_of, tilde};
use crate::stars::{make_star, polynomial_of};
use dual_pair::Side;
use face_poset::FaceTable;
use poset_g::GTable;
use small_poly::Poly1;

/// The room for the rows of 4,096 faces.
const ROOM: usize = 32768;

/// The numbers of lattice points of a face, of the first degrees.
fn count_row<C: FaceNumbers>(counts: &C, side: Side, face: u32, used: u32) -> [i64; 9]
    requires used { used ≤ (C.numbers counts.now).dim }
    requires few { used ≤ 8 }
    requires face { face < (C.numbers counts.now).faces }
    ensures value { (s : ℕ) → s < used → entry result s ≡ points_of (C.numbers counts.now) side face s }
    ensures counts { (s : ℕ) → pos 0 ≤ℤ entry result s }
    ensures small { (s : ℕ) → nat_abs (entry result s) ≤ 2 ^ 21 }
{
    let mut row = [0; 9];
    for s in 0..used {
        row[s as usize] = counts.count(side, s, face) as i64;
    }
    row
}

/// The rank by which h* of a face is made.
fn rank_on(table: &FaceTable, side: Side, face: u32) -> u32
    requires { face < length table.now.faces }
    ensures value { IsStarRank table.now side face result }
    ensures most { (most : ℕ) → All (λ face. face.rank ≤ most) table.now.faces → result ≤ most }
{
    let top = table.top_rank();
    let rank = table.rank(face);
    match side {
        Side::M => rank,
        Side::N => top - rank,
    }
}

/// h* of a face, as a row. The counts tell the dimension of the cone.
fn star_row<C: FaceNumbers>(
    counts: &C,
    table: &FaceTable,
    dim: u32,
    side: Side,
    face: u32,
) -> [i64; 9]
    requires dim { dim ≡ (C.numbers counts.now).dim }
    requires some { 1 ≤ dim }
    requires few { dim ≤ 8 }
    requires face { face < length table.now.faces }
    requires counts { AreCountsOf table.now (C.numbers counts.now) }
    ensures value { IsHStar table.now (C.numbers counts.now) side face (entry result) }
    ensures small { (k : ℕ) → nat_abs (entry result k) ≤ 2 ^ 28 }
    ensures short { HasDegreeAtMost 7 (entry result) }
    ensures degree { HasDegreeAtMost (degree_of table.now side face) (entry result) }
{
    let rank = rank_on(table, side, face);
    let mut row = count_row(counts, side, face, rank.max(1).min(dim));
    make_star(&mut row, rank as usize);
    row
}

/// h* of a face on a side: on side M the polynomial that its numbers of lattice points make by its rank, and on side N that of its dual face, by what
/// is left from its rank to the highest one. The counts are those of the table's faces. It takes no memory. Source: alg-geom/9509009.
pub fn h_star<C: FaceNumbers>(counts: &C, table: &FaceTable, face: u32, side: Side) -> Poly1
    requires face { face < length table.now.faces }
    requires counts { AreCountsOf table.now (C.numbers counts.now) }
    ensures { IsHStar table.now (C.numbers counts.now) side face (entry result) }
{
    let dim = counts.sum_dim();
    polynomial_of(&star_row(counts, table, dim, side, face))
}

/// Puts the row of a face at its place.
fn put_row(rows: &mut [i32], face: u32, row: &[i64; 9])
    requires room { 8 * face + 8 ≤ length rows.old }
    requires small { (k : ℕ) → nat_abs (entry row.now k) ≤ 2 ^ 28 }
    ensures long { length rows.new ≡ length rows.old }
    ensures at { (k : ℕ) → k < 8 → entry rows.new (8 * face + k) ≡ entry row.now k }
    ensures others { (j : ℕ) → (j < 8 * face) ⊎ (8 * face + 8 ≤ j) → entry rows.new j ≡ entry rows.old j }
{
    let first = 8 * face as usize;
    for k in 0..8 {
        rows[first + k] = row[k] as i32;
    }
}

/// Room for the rows of all faces.
fn empty_rows() -> [i32; 32768]
    ensures { (j : ℕ) → entry result j ≡ pos 0 }
{
    [0; ROOM]
}

/// Puts h* of all faces in their places.
fn fill_rows<C: FaceNumbers>(rows: &mut [i32], counts: &C, table: &FaceTable, dim: u32, side: Side)
    requires dim { dim ≡ (C.numbers counts.now).dim }
    requires some { 1 ≤ dim }
    requires few { dim ≤ 8 }
    requires room { length rows.old ≡ 32768 }
    requires empty { (j : ℕ) → entry rows.old j ≡ pos 0 }
    requires counts { AreCountsOf table.now (C.numbers counts.now) }
    ensures rows { AreRows table.now side rows.new }
    ensures value { (f : ℕ) → f < length table.now.faces → IsHStar table.now (C.numbers counts.now) side f (row_at rows.new f) }
{
    for face in 0..table.len() {
        put_row(rows, face, &star_row(counts, table, dim, side, face));
    }
}

/// S~ of a face on a side: the sum, over the faces X within it, of h* of X times G of the interval from X to it, with the sign of the difference of
/// ranks; on side N the same from above. The counts are those of the table's faces, of which `g` has G and G'. It takes no memory. Source:
/// alg-geom/9509009.
pub fn s_tilde<C: FaceNumbers>(
    counts: &C,
    table: &FaceTable,
    g: &GTable,
    face: u32,
    side: Side,
) -> Poly1
    requires face { face < length table.now.faces }
    requires faces { HasAllFaces table.now }
    requires holds { HoldsG table.now g.now }
    requires small { AreSmall table.now }
    requires counts { AreCountsOf table.now (C.numbers counts.now) }
    ensures { IsSTilde table.now (C.numbers counts.now) side face (entry result) }
{
    let dim = counts.sum_dim();
    let mut rows = empty_rows();
    fill_rows(&mut rows, counts, table, dim, side);
    tilde(table, g, &rows, side, face)
}

/// The stringy numbers of a cone in a codimension r, from its numbers of lattice points by face and the polynomials G and G' of its faces. Their
/// numerator is the sum over all faces X <= F <= Y; it is made as a sum, over the faces F, of a product of two polynomials. The counts are those of
/// the table's faces, of which `g` has G and G', and r is at least 1 and at most half of the dimension of the cone. It takes no memory. Source:
/// alg-geom/9509009.
pub fn e_poly<C: FaceNumbers>(counts: &C, table: &FaceTable, g: &GTable, codim: u32) -> EPoly
    requires faces { HasAllFaces table.now }
    requires holds { HoldsG table.now g.now }
    requires small { AreSmall table.now }
    requires counts { AreCountsOf table.now (C.numbers counts.now) }
    requires codim { 1 ≤ codim }
    requires most { 2 * codim ≤ (C.numbers counts.now).dim }
    ensures dim { result.dim + 2 * codim ≡ (C.numbers counts.now).dim }
    ensures codim { result.codim ≡ codim }
    ensures numerator { IsNumerator table.now (C.numbers counts.now) result.numerator }
{
    let dim = counts.sum_dim();
    let mut inner = empty_rows();
    fill_rows(&mut inner, counts, table, dim, Side::M);
    let mut outer = empty_rows();
    fill_rows(&mut outer, counts, table, dim, Side::N);
    EPoly::of(
        numerator_of(table, g, &inner, &outer),
        dim - 2 * codim,
        codim,
    )
}
