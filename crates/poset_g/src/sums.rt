//! The sums of which the coefficients of G and G' are made.
ghost use Rattle.std.specs.Prelude.{◌≡◌, ℕ, suc, true, false, cond, nat_lt, [], ◌∷◌, ◌++◌, ◌+◌, ◌*◌, ◌^◌, ◌<◌, ◌≤◌, ◌*ℤ◌, nat_abs, length, IfOk, IfErr};
ghost use Rattle.lattice_theory.specs.Vector.{entry};
ghost use Rattle.polynomial_theory.specs.Series.{product, power, t_minus_1};
ghost use Rattle.face_closing.specs.declared.limits.TheConstants.{MOST_FACES};
ghost use Rattle.poset_g.specs.declared.faults.GFault.TheVariants as GFault;
ghost use Rattle.poset_g.specs.declared.faults.TheConstants.{MOST_COEFFICIENT};
ghost use Rattle.poset_g.specs.Numbered.{IsInterval};
ghost use Rattle.poset_g.specs.Stored.{find_at};
ghost use Rattle.poset_g.specs.Values.{coefficient};
ghost use Rattle.poset_g.specs.FillSteps.{place_of, above, between, near, negative_sum, kept_term, CanFill, AreFilledBelow};

use crate::faults::GFault;
use crate::places::Places;
use face_poset::FaceTable;

/// The coefficients of 1, t, t^2 and t^3 in the powers of t - 1 from the 0th to the 8th.
const POWERS: [i64; 36] = [
    1, 0, 0, 0, -1, 1, 0, 0, 1, -2, 1, 0, -1, 3, -3, 1, 1, -4, 6, -4, -1, 5, -10, 10, 1, -6, 15,
    -20, -1, 7, -21, 35, 1, -8, 28, -56,
];

/// Which coefficient is wanted: that of t^degree in G, or in G', of the interval between two faces.
#[derive(Clone, Copy)]
pub(crate) struct Wanted {
    pub(crate) from: u32,
    pub(crate) to: u32,
    pub(crate) dual: bool,
    pub(crate) degree: usize,
}

/// The coefficient of t^a in (t - 1)^n.
fn power_of(n: usize, a: usize) -> i64
    requires power { n ≤ 8 }
    requires degree { a ≤ 3 }
    ensures value { result ≡ power t_minus_1 n a }
    ensures size { nat_abs result ≤ 56 }
{
    POWERS[4 * n + a]
}

/// The product of two small numbers.
fn product_of(a: i64, b: i64) -> i64
    requires first { nat_abs a ≤ 56 }
    requires second { nat_abs b ≤ MOST_COEFFICIENT }
    ensures value { result ≡ a *ℤ b }
    ensures size { nat_abs result ≤ 56 * 4096 }
{
    a * b
}

/// The coefficient of t^degree in the product of (t - 1)^n and the polynomial whose coefficients begin at a place.
fn term(values: &[i64], first: usize, n: usize, degree: usize) -> i64
    requires power { n ≤ 8 }
    requires degree { degree ≤ 3 }
    requires within { first + degree < length values.now }
    requires small { (b : ℕ) → b ≤ degree → nat_abs (entry values.now (first + b)) ≤ MOST_COEFFICIENT }
    ensures value { result ≡ product (power t_minus_1 n) (λ b. entry values.now (first + b)) degree }
    ensures size { nat_abs result ≤ 2 ^ 20 }
{
    let mut sum = 0_i64;
    for a in 0..degree + 1 {
        sum += product_of(power_of(n, a), values[first + (degree - a)]);
    }
    sum
}

/// The term of one face in the sum of the wanted coefficient.
fn term_of(table: &FaceTable, places: &Places, values: &[i64], wanted: Wanted, face: u32) -> i64
    requires ready { CanFill table.now places.now values.now }
    requires degree { wanted.degree ≤ 3 }
    requires interval { IsInterval table.now wanted.from wanted.to }
    requires first { IsInterval table.now wanted.from face }
    requires second { IsInterval table.now face wanted.to }
    requires filled { AreFilledBelow table.now places.now values.now (place_of wanted) }
    ensures value { result ≡ kept_term table.now (place_of wanted) face }
    ensures size { nat_abs result ≤ 2 ^ 20 }
{
    if wanted.dual {
        term_above(table, places, values, wanted, face)
    } else {
        term_below(table, places, values, wanted, face)
    }
}

/// The same for G.
fn term_below(table: &FaceTable, places: &Places, values: &[i64], wanted: Wanted, face: u32) -> i64
    requires ready { CanFill table.now places.now values.now }
    requires degree { wanted.degree ≤ 3 }
    requires first { IsInterval table.now wanted.from face }
    requires second { IsInterval table.now face wanted.to }
    requires filled { AreFilledBelow table.now places.now values.now (record { from = wanted.from; to = wanted.to; dual = false; degree = wanted.degree }) }
    ensures value { result ≡ kept_term table.now (record { from = wanted.from; to = wanted.to; dual = false; degree = wanted.degree }) face }
    ensures size { nat_abs result ≤ 2 ^ 20 }
{
    if face == wanted.from {
        return 0;
    }
    let upper = table.rank(face);
    let lower = table.rank(wanted.from);
    match places.find(face, wanted.to) {
        None => 0,
        Some(place) => term(values, 8 * place, (upper - lower) as usize, wanted.degree),
    }
}

/// The same for G'.
fn term_above(table: &FaceTable, places: &Places, values: &[i64], wanted: Wanted, face: u32) -> i64
    requires ready { CanFill table.now places.now values.now }
    requires degree { wanted.degree ≤ 3 }
    requires first { IsInterval table.now wanted.from face }
    requires second { IsInterval table.now face wanted.to }
    requires filled { AreFilledBelow table.now places.now values.now (record { from = wanted.from; to = wanted.to; dual = true; degree = wanted.degree }) }
    ensures value { result ≡ kept_term table.now (record { from = wanted.from; to = wanted.to; dual = true; degree = wanted.degree }) face }
    ensures size { nat_abs result ≤ 2 ^ 20 }
{
    if face == wanted.to {
        return 0;
    }
    let upper = table.rank(wanted.to);
    let lower = table.rank(face);
    match places.find(wanted.from, face) {
        None => 0,
        Some(place) => term(
            values,
            8 * place + 4,
            (upper - lower) as usize,
            wanted.degree,
        ),
    }
}

/// Whether there is an interval.
pub(crate) fn has(places: &Places, x: u32, y: u32) -> bool
    ensures { result ≡ nat_lt 0 (find_at places.now x y) }
{
    match places.find(x, y) {
        None => false,
        Some(_) => true,
    }
}

/// One face more, where there is an interval from it, or to it.
fn push_with(
    places: &Places,
    from: u32,
    to: u32,
    face: u32,
    faces: &mut Vec<u32>,
) -> Result<(), GFault>
    ensures faces { IfOk result (λ done. faces.new.items ≡ faces.old.items ++ cond (nat_lt 0 (find_at places.now from to)) (face ∷ []) []) }
    ensures fault { IfErr result (λ fault. fault ≡ GFault.NoMemory) }
{
    if has(places, from, to) {
        faces.push(face)?;
    }
    Ok(())
}

/// The faces that are a face or above it, in order.
pub(crate) fn find_above(places: &Places, from: u32, faces: &mut Vec<u32>) -> Result<(), GFault>
    requires few { places.now.count ≤ MOST_FACES }
    requires from { from ≤ places.now.count }
    requires lower { (z p : ℕ) → find_at places.now from z ≡ suc p → from ≤ z }
    ensures faces { IfOk result (λ done. faces.new.items ≡ above places.now from) }
    ensures fault { IfErr result (λ fault. fault ≡ GFault.NoMemory) }
{
    faces.clear();
    for face in from..places.count() {
        push_with(places, from, face, face, faces)?;
    }
    Ok(())
}

/// The faces x with from <= x <= to, in order, of those that are `from` or above it.
pub(crate) fn find_between(
    places: &Places,
    higher: &[u32],
    from: u32,
    to: u32,
    faces: &mut Vec<u32>,
) -> Result<(), GFault>
    requires few { places.now.count ≤ MOST_FACES }
    requires above { higher.now ≡ above places.now from }
    ensures faces { IfOk result (λ done. faces.new.items ≡ between places.now from to) }
    ensures few { IfOk result (λ done. length faces.new.items ≤ MOST_FACES) }
    ensures fault { IfErr result (λ fault. fault ≡ GFault.NoMemory) }
{
    faces.clear();
    for i in 0..higher.len() {
        push_with(places, higher[i], to, higher[i], faces)?;
    }
    Ok(())
}

/// The sum of the terms of the faces of an interval, with the opposite sign.
fn sum_of(table: &FaceTable, places: &Places, values: &[i64], faces: &[u32], wanted: Wanted) -> i64
    requires ready { CanFill table.now places.now values.now }
    requires degree { wanted.degree ≤ 3 }
    requires interval { IsInterval table.now wanted.from wanted.to }
    requires faces { faces.now ≡ between places.now wanted.from wanted.to }
    requires few { length faces.now ≤ MOST_FACES }
    requires filled { AreFilledBelow table.now places.now values.now (place_of wanted) }
    ensures value { result ≡ negative_sum table.now (place_of wanted) faces.now }
{
    let mut sum = 0_i64;
    for i in 0..faces.len() {
        sum += term_of(table, places, values, wanted, faces[i]);
    }
    -sum
}

/// The wanted coefficient, where those of all smaller differences of ranks are there.
pub(crate) fn value_of(
    table: &FaceTable,
    places: &Places,
    values: &[i64],
    faces: &[u32],
    wanted: Wanted,
) -> i64
    requires ready { CanFill table.now places.now values.now }
    requires degree { wanted.degree ≤ 3 }
    requires interval { IsInterval table.now wanted.from wanted.to }
    requires faces { faces.now ≡ between places.now wanted.from wanted.to }
    requires few { length faces.now ≤ MOST_FACES }
    requires filled { AreFilledBelow table.now places.now values.now (place_of wanted) }
    ensures value { result ≡ coefficient table.now (place_of wanted) }
{
    if wanted.from == wanted.to {
        return if wanted.degree == 0 { 1 } else { 0 };
    }
    let upper = table.rank(wanted.to);
    let lower = table.rank(wanted.from);
    if 2 * wanted.degree < (upper - lower) as usize {
        sum_of(table, places, values, faces, wanted)
    } else {
        0
    }
}
