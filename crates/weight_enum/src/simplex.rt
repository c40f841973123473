//! A simplex in whole numbers, by which certificates are sought. Its numbers wrap where they are too large: what it finds is checked by others.
ghost use Rattle.std.specs.Prelude.{◌<◌, ◌≤◌};

use arrayvec::ArrayVec;
use lattice_core::{MOST_COORDINATES, Point};

/// A row of the inverse of the chosen points, and how many times its point is taken, both times the divisor.
#[derive(Default, Drop)]
pub(crate) struct Row {
    pub(crate) vector: [i64; MOST_COORDINATES],
    pub(crate) value: i128,
    /// The place of the chosen point; none, as long as a unit vector or its opposite stands there.
    pub(crate) place: Option<usize>,
}

/// The rows, and their common divisor.
#[derive(Drop)]
pub(crate) struct Basis {
    pub(crate) rows: ArrayVec<Row, MOST_COORDINATES>,
    pub(crate) divisor: i64,
}

/// The sum of products of entries. They are made one by one: vectors of 64-bit products are slower.
#[inline]
fn paired(v: &[i64; MOST_COORDINATES], entries: &[i64]) -> i64 {
    let mut sum = 0_i64;
    for (a, b) in entries.iter().zip(v) {
        sum = sum.wrapping_add(a.wrapping_mul(*b));
    }
    sum
}

/// The quotient, or 0 where there is no divisor.
#[inline]
fn quotient(a: i64, divisor: i64) -> i64 {
    if divisor == 0 || divisor == 1 {
        return a;
    }
    a.wrapping_div(divisor)
}

/// The same in 128 bits.
#[inline]
fn wide_quotient(a: i128, divisor: i64) -> i128 {
    if divisor == 0 || divisor == 1 {
        return a;
    }
    a.wrapping_div(i128::from(divisor))
}

/// The sums of the points' entries.
fn entry_sums(points: &[Point]) -> [i64; MOST_COORDINATES] {
    let mut sums = [0_i64; MOST_COORDINATES];
    for point in points {
        for (sum, a) in sums.iter_mut().zip(point.entries()) {
            *sum = sum.wrapping_add(*a);
        }
    }
    sums
}

/// The row of a unit vector, or of its opposite, that is taken so many times.
fn first_row(j: usize, value: i64) -> Row
    requires { j < 6 }
{
    let mut vector = [0; MOST_COORDINATES];
    vector[j] = if value < 0 { -1 } else { 1 };
    Row {
        vector,
        value: i128::from(value).wrapping_abs(),
        place: None,
    }
}

impl Row {
    /// The row times a number, less the pivot's row times another one, over the divisor.
    fn reduce(&mut self, pivot: &Row, own: i64, others: i64, divisor: i64) {
        for j in 0..MOST_COORDINATES {
            let a = own.wrapping_mul(self.vector[j]);
            let b = others.wrapping_mul(pivot.vector[j]);
            self.vector[j] = quotient(a.wrapping_sub(b), divisor);
        }
        let a = i128::from(own).wrapping_mul(self.value);
        let b = i128::from(others).wrapping_mul(pivot.value);
        self.value = wide_quotient(a.wrapping_sub(b), divisor);
    }

    /// The opposite of all numbers.
    fn turn(&mut self) {
        for a in self.vector.iter_mut() {
            *a = a.wrapping_neg();
        }
        self.value = self.value.wrapping_neg();
    }

    /// The same row, of the point at the place.
    fn at_place(&self, place: usize) -> Row {
        Row {
            vector: self.vector,
            value: self.value,
            place: Some(place),
        }
    }
}

/// The place of the point with the largest positive value, where there is one.
pub(crate) fn largest(points: &[Point], v: &[i64; MOST_COORDINATES]) -> Option<usize> {
    let mut most = 0;
    let mut place = None;
    for i in 0..points.len() {
        let value = paired(v, points[i].entries());
        if value > most {
            most = value;
            place = Some(i);
        }
    }
    place
}

/// The place of the first point whose value isn't 0.
pub(crate) fn first_nonzero(points: &[Point], v: &[i64; MOST_COORDINATES]) -> Option<usize> {
    points.iter().position(|p| paired(v, p.entries()) != 0)
}

/// How many times a point may be taken until the value of a row is 0.
#[derive(Drop)]
struct Ratio {
    row: usize,
    value: i128,
    own: i64,
    is_unit: bool,
}

impl Ratio {
    /// Whether the row leaves before the other one. Of two at once, a unit vector leaves.
    fn is_before(&self, other: &Option<Ratio>) -> bool {
        if self.own <= 0 {
            return false;
        }
        let Some(other) = other else {
            return true;
        };
        let here = self.value.wrapping_mul(i128::from(other.own));
        let there = other.value.wrapping_mul(i128::from(self.own));
        here < there || (here == there && self.is_unit)
    }
}

impl Basis {
    /// Unit vectors and opposites of them, as often as the points' sum needs to be 0.
    pub(crate) fn new(points: &[Point], n: usize) -> Basis
        requires { n ≤ 6 }
    {
        let sums = entry_sums(points);
        let mut rows = ArrayVec::new();
        for j in 0..n {
            rows.push(first_row(j, sums[j].wrapping_neg()));
        }
        Basis { rows, divisor: 1 }
    }

    /// Whether no unit vector is needed any more.
    pub(crate) fn is_balanced(&self) -> bool {
        self.rows
            .iter()
            .all(|row| row.place.is_some() || row.value == 0)
    }

    /// The sum of the rows of unit vectors.
    pub(crate) fn prices(&self) -> [i64; MOST_COORDINATES] {
        let mut sum = [0_i64; MOST_COORDINATES];
        for row in self.rows.iter() {
            if row.place.is_none() {
                for j in 0..MOST_COORDINATES {
                    sum[j] = sum[j].wrapping_add(row.vector[j]);
                }
            }
        }
        sum
    }

    /// The row that leaves for a point: of those with a positive value there, the one whose own value falls to 0 first.
    fn leaving(&self, point: &Point) -> Option<Ratio> {
        let mut first: Option<Ratio> = None;
        for r in 0..self.rows.len() {
            let row = &self.rows[r];
            let ratio = Ratio {
                row: r,
                value: row.value,
                own: paired(&row.vector, point.entries()),
                is_unit: row.place.is_none(),
            };
            if ratio.is_before(&first) {
                first = Some(ratio);
            }
        }
        first
    }

    /// Takes the point at the place into the row.
    pub(crate) fn enter(&mut self, r: usize, points: &[Point], place: usize) {
        let (Some(point), Some(row)) = (points.get(place), self.rows.as_slice().get(r)) else {
            return;
        };
        let pivot = row.at_place(place);
        let own = paired(&pivot.vector, point.entries());
        for row in self.rows.as_mut_slice().iter_mut() {
            let others = paired(&row.vector, point.entries());
            row.reduce(&pivot, own, others, self.divisor);
        }
        if let Some(row) = self.rows.get_mut(r) {
            *row = pivot;
        }
        self.divisor = own;
    }

    /// The row, where it has no point.
    pub(crate) fn unit_row(&self, r: usize) -> Option<[i64; MOST_COORDINATES]> {
        match self.rows.as_slice().get(r) {
            Some(row) if row.place.is_none() => Some(row.vector),
            _ => None,
        }
    }

    /// Makes the divisor positive.
    pub(crate) fn turn(&mut self) {
        if self.divisor < 0 {
            for row in self.rows.as_mut_slice().iter_mut() {
                row.turn();
            }
            self.divisor = self.divisor.wrapping_neg();
        }
    }

    /// Takes the point at the place in. It answers whether a row leaves for it.
    pub(crate) fn step(&mut self, points: &[Point], place: usize) -> bool {
        let Some(point) = points.get(place) else {
            return false;
        };
        let Some(ratio) = self.leaving(point) else {
            return false;
        };
        self.enter(ratio.row, points, place);
        true
    }
}
