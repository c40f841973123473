//! Sums over the faces on one side of a face.
ghost use Rattle.std.specs.Prelude.{◌≡◌, ℕ, ◌+◌, ◌-◌, ◌*◌, ◌^◌, ◌<◌, ◌≤◌, true, ◌+ℤ◌, nat_abs, length};
ghost use Rattle.lattice_theory.specs.Vector.{entry};
ghost use Rattle.polynomial_theory.specs.Sums.{sign};
ghost use Rattle.polynomial_theory.specs.Series.{HasDegreeAtMost};
ghost use Rattle.small_poly.specs.Tables.{unit_of};
ghost use Rattle.dual_pair.specs.declared.side.Side.TheVariants as Side;
ghost use Rattle.poset_g.specs.Numbered.{numbered, HasAllFaces, HasSmallRanks};
ghost use Rattle.poset_g.specs.Values.{HoldsG, AreSmall};
ghost use Rattle.stringy.specs.RowSteps.{row_at, tilde_of, low_of, high_of, first_of, end_of, interval_of, term_of, AreRows};

use crate::rows::add_product;
use dual_pair::Side;
use face_poset::FaceTable;
use poset_g::GTable;
use small_poly::Poly1;

/// Whether the difference of two ranks is odd.
fn is_odd(low: u32, high: u32) -> bool
    requires { low ≤ high }
    ensures { unit_of result ≡ sign (high - low) }
{
    (high - low) % 2 == 1
}

/// The row of a face.
fn row_of(rows: &[i32], face: u32) -> [i64; 9]
    requires { 8 * face + 8 ≤ length rows.now }
    ensures { (k : ℕ) → entry result k ≡ row_at rows.now face k }
{
    let first = 8 * face as usize;
    let mut row = [0; 9];
    for k in 0..8 {
        row[k] = i64::from(rows[first + k]);
    }
    row
}

/// The coefficients of a polynomial of degree at most 3, which are at most 4,096 in size.
fn short_row(polynomial: &Poly1) -> [i64; 4]
    requires small { (k : ℕ) → nat_abs (entry polynomial.now k) ≤ 2 ^ 12 }
    requires degree { HasDegreeAtMost 3 (entry polynomial.now) }
    ensures { (k : ℕ) → entry result k ≡ entry polynomial.now k }
{
    let mut row = [0; 4];
    for k in 0..4 {
        row[k] = polynomial.coefficient(k) as i64;
    }
    row
}

/// The lower one of a face and another one.
fn lower(side: Side, face: u32, other: u32) -> u32
    ensures { result ≡ low_of side face other }
{
    match side {
        Side::M => other,
        Side::N => face,
    }
}

/// The upper one.
fn upper(side: Side, face: u32, other: u32) -> u32
    ensures { result ≡ high_of side face other }
{
    match side {
        Side::M => face,
        Side::N => other,
    }
}

/// G of an interval of a table's faces.
fn g_row(table: &FaceTable, g: &GTable, low: u32, high: u32) -> [i64; 4]
    requires low { low < length table.now.faces }
    requires high { high < length table.now.faces }
    requires faces { HasAllFaces table.now }
    requires ranks { HasSmallRanks table.now }
    requires holds { HoldsG table.now g.now }
    requires small { AreSmall table.now }
    requires below { (numbered table.now).below low high ≡ true }
    ensures value { (k : ℕ) → entry result k ≡ interval_of table.now Side.M low high k }
    ensures small { (k : ℕ) → nat_abs (entry result k) ≤ 2 ^ 12 }
{
    short_row(&g.g(low, high))
}

/// G' of an interval.
fn g_dual_row(table: &FaceTable, g: &GTable, low: u32, high: u32) -> [i64; 4]
    requires low { low < length table.now.faces }
    requires high { high < length table.now.faces }
    requires faces { HasAllFaces table.now }
    requires ranks { HasSmallRanks table.now }
    requires holds { HoldsG table.now g.now }
    requires small { AreSmall table.now }
    requires below { (numbered table.now).below low high ≡ true }
    ensures value { (k : ℕ) → entry result k ≡ interval_of table.now Side.N low high k }
    ensures small { (k : ℕ) → nat_abs (entry result k) ≤ 2 ^ 12 }
{
    short_row(&g.g_dual(low, high))
}

/// The polynomial of an interval on a side.
fn interval(table: &FaceTable, g: &GTable, side: Side, low: u32, high: u32) -> [i64; 4]
    requires low { low < length table.now.faces }
    requires high { high < length table.now.faces }
    requires faces { HasAllFaces table.now }
    requires ranks { HasSmallRanks table.now }
    requires holds { HoldsG table.now g.now }
    requires small { AreSmall table.now }
    requires below { (numbered table.now).below low high ≡ true }
    ensures value { (k : ℕ) → entry result k ≡ interval_of table.now side low high k }
    ensures small { (k : ℕ) → nat_abs (entry result k) ≤ 2 ^ 12 }
{
    match side {
        Side::M => g_row(table, g, low, high),
        Side::N => g_dual_row(table, g, low, high),
    }
}

/// The number from which faces are on a side of a face.
fn first_on(side: Side, face: u32) -> u32
    ensures { result ≡ first_of side face }
{
    match side {
        Side::M => 0,
        Side::N => face,
    }
}

/// The number before which they are, of so many faces.
fn end_on(side: Side, face: u32, count: u32) -> u32
    requires { face < count }
    ensures { result ≡ end_of side face count }
{
    match side {
        Side::M => face + 1,
        Side::N => count,
    }
}

/// Adds what another face adds to the sum of a face.
fn add_face(
    sums: &mut [i64; 9],
    table: &FaceTable,
    g: &GTable,
    rows: &[i32],
    side: Side,
    face: u32,
    other: u32,
)
    requires face { face < length table.now.faces }
    requires other { other < length table.now.faces }
    requires faces { HasAllFaces table.now }
    requires ranks { HasSmallRanks table.now }
    requires holds { HoldsG table.now g.now }
    requires small { AreSmall table.now }
    requires rows { AreRows table.now side rows.now }
    requires sums { (k : ℕ) → nat_abs (entry sums.old k) ≤ 2 ^ 60 }
    ensures { (k : ℕ) → k < 9 → entry sums.new k ≡ entry sums.old k +ℤ term_of table.now side (row_at rows.now) face k other }
{
    let low = lower(side, face, other);
    let high = upper(side, face, other);
    if g.has(low, high) {
        let negative = is_odd(table.rank(low), table.rank(high));
        add_product(
            sums,
            negative,
            &row_of(rows, other),
            &interval(table, g, side, low, high),
        );
    }
}

/// The sum of a face on a side, from the rows of all faces.
pub(crate) fn tilde_row(
    table: &FaceTable,
    g: &GTable,
    rows: &[i32],
    side: Side,
    face: u32,
) -> [i64; 9]
    requires face { face < length table.now.faces }
    requires faces { HasAllFaces table.now }
    requires ranks { HasSmallRanks table.now }
    requires holds { HoldsG table.now g.now }
    requires small { AreSmall table.now }
    requires rows { AreRows table.now side rows.now }
    ensures value { (k : ℕ) → entry result k ≡ tilde_of table.now side (row_at rows.now) face k }
    ensures small { (k : ℕ) → nat_abs (entry result k) ≤ 2 ^ 54 }
{
    let mut sums = [0; 9];
    for other in first_on(side, face)..end_on(side, face, table.len()) {
        add_face(&mut sums, table, g, rows, side, face, other);
    }
    sums
}
