//! Combinations of vectors, and the coordinates of a vector that is one.
ghost use Rattle.std.specs.Prelude.{◌≡◌, ◌↔◌, ℕ, ◌+◌, ◌^◌, ◌<◌, ◌≤◌, List, length, map, ℤ, pos, nat_abs, ◌-ℤ◌, ◌<ℤ◌, IsTrue, MatchOption};
ghost use Rattle.std.specs.Int.RustNames.{int_div};
ghost use Rattle.std.specs.List.{All};
ghost use Rattle.lattice_theory.specs.Vector.{entry, dot};
ghost use Rattle.lattice_core.specs.Weights.{weighted_all, columns_of, IsInLattice, AreWellFormed, AreWithinLimits};
ghost use Rattle.lattice_core.specs.declared.limits.TheConstants.{MOST_COORDINATES, MOST_DEGREE, MOST_COORDINATE, MOST_FRAME_ENTRY};
ghost use Rattle.weight_frame.specs.Frame.{IsIntegerCombination, AreWithinEntryLimit, largest};
ghost use Rattle.weight_frame.specs.steps.Reached.{AreSmallVectors};
ghost use Rattle.weight_frame.specs.steps.Echelon.{Leads, IsZeroBelow};
ghost use Rattle.weight_frame.specs.steps.Places.{IsFirstPlace, IsNextCoordinate, AreFound, IsLargeSomewhere};
ghost use Rattle.weight_frame.specs.Answers.{IsHandedOut, IsAnswer};

use crate::multiples::product;
use crate::values::weighted_value;
use crate::vector::FrameVector;
use arrayvec::ArrayVec;
use lattice_core::{MOST_COORDINATE, MOST_COORDINATES, Point, WeightSystem, narrowed_entry};

/// What is known of a vector's coordinates in a frame.
#[derive(Debug, Drop, PartialEq, Eq)]
pub enum Coordinates {
    /// The vector is in the lattice, and these are its coordinates.
    At(Point),
    /// The vector is in the lattice, and one of its coordinates is above 1,073,741,824 in size.
    Large,
    /// The vector isn't in the lattice.
    Outside,
}

/// The entry at the place `i` of the sum of the first vectors, each times its coefficient.
fn combined_entry(coefficients: &[i64], vectors: &[FrameVector], i: usize) -> i128
    requires count { length coefficients.now ≤ length vectors.now }
    requires most { length vectors.now ≤ MOST_COORDINATES }
    requires dimension { All (λ b. i < length b) vectors.now }
    requires entries { AreWithinEntryLimit vectors.now }
    requires coefficients { largest coefficients.now ≤ MOST_COORDINATE }
    ensures value { result ≡ dot coefficients.now (map (λ b. entry b i) vectors.now) }
    ensures bound { nat_abs result ≤ 2 ^ 98 }
{
    let mut sum = 0_i128;
    for j in 0..coefficients.len() {
        sum += product(i128::from(coefficients[j]), vectors[j].entries()[i]);
    }
    sum
}

/// Writes the sum of the vectors, each times its coefficient.
pub(crate) fn combine(coefficients: &[i64], vectors: &[FrameVector], out: &mut [i128])
    requires count { length coefficients.now ≤ length vectors.now }
    requires most { length vectors.now ≤ MOST_COORDINATES }
    requires small { AreSmallVectors (length out.old) vectors.now }
    requires coefficients { largest coefficients.now ≤ MOST_COORDINATE }
    ensures { IsIntegerCombination (length out.old) coefficients.now vectors.now out.new }
{
    for i in 0..out.len() {
        out[i] = combined_entry(coefficients, vectors, i);
    }
}

/// The place of the first entry that isn't 0, where those before the place `from` are 0.
#[inline]
fn first_place(x: &[i64], from: usize) -> Option<usize>
    requires zeros { IsZeroBelow from x.now }
    ensures { MatchOption result (All (λ a. a ≡ pos 0) x.now) (IsFirstPlace x.now) }
{
    for place in from..x.len() {
        if x[place] != 0 {
            return Some(place);
        }
    }
    None
}

/// The quotient, rounded to 0. Without a division where the divisor is 1, and in 64 bits where the dividend fits.
#[inline]
fn quotient_to_zero(a: i128, divisor: i64) -> i128
    requires positive { pos 0 <ℤ divisor }
    ensures { result ≡ int_div a divisor }
{
    if divisor == 1 {
        return a;
    }
    match i64::try_from(a) {
        Ok(a) => i128::from(a / divisor),
        Err(_) => a / i128::from(divisor),
    }
}

/// A difference, divided.
#[inline]
fn quotient_of(a: i64, b: i128, divisor: i64) -> i128
    requires small { nat_abs b ≤ 2 ^ 98 }
    requires positive { pos 0 <ℤ divisor }
    ensures { result ≡ int_div (a -ℤ b) divisor }
{
    quotient_to_zero(i128::from(a) - b, divisor)
}

/// The next coordinate of `x`, where the first ones are found.
fn next_coordinate(x: &[i64], vectors: &[FrameVector], found: &[i64]) -> i128
    requires some { length found.now < length vectors.now }
    requires most { length vectors.now ≤ MOST_COORDINATES }
    requires small { AreSmallVectors (length x.now) vectors.now }
    requires leads { Leads 0 vectors.now }
    requires found { largest found.now ≤ MOST_COORDINATE }
    ensures { IsNextCoordinate vectors.now x.now found.now result }
{
    let vector = vectors[found.len()].entries();
    match first_place(vector, found.len()) {
        Some(place) => quotient_of(
            x[place],
            combined_entry(found, vectors, place),
            vector[place],
        ),
        None => unreachable!(),
    }
}

/// The coordinates of a combination of the vectors. It is `None` where one of them is above the limit.
fn coordinates_of(x: &[i64], vectors: &[FrameVector]) -> Option<ArrayVec<i64, MOST_COORDINATES>>
    requires most { length vectors.now ≤ MOST_COORDINATES }
    requires small { AreSmallVectors (length x.now) vectors.now }
    requires leads { Leads 0 vectors.now }
    ensures { MatchOption result (IsLargeSomewhere vectors.now x.now) (λ found. AreFound vectors.now x.now found.items) }
{
    let mut found = ArrayVec::new();
    for _place in 0..vectors.len() {
        let next = next_coordinate(x, vectors, found.as_slice());
        if next.unsigned_abs() > MOST_COORDINATE {
            return None;
        }
        found.push(narrowed_entry(next));
    }
    Some(found)
}

/// Whether the vector is in the lattice of the systems.
fn is_inside(systems: &[WeightSystem], x: &[i64]) -> bool
    requires formed { AreWellFormed (weighted_all systems.now) }
    requires limited { AreWithinLimits (weighted_all systems.now) }
    requires columns { length x.now ≡ columns_of (weighted_all systems.now) }
    requires small { largest x.now ≤ MOST_FRAME_ENTRY }
    ensures { IsTrue result ↔ IsInLattice (weighted_all systems.now) x.now }
{
    for system in systems {
        if weighted_value(&system.weights, x) != 0 {
            return false;
        }
    }
    true
}

/// What is known of the coordinates of `x` in the frame of the systems.
pub(crate) fn answer(systems: &[WeightSystem], vectors: &[FrameVector], x: &[i64]) -> Coordinates
    requires frame { IsHandedOut (record { systems = weighted_all systems.now; vectors = vectors.now }) }
    requires columns { length x.now ≡ columns_of (weighted_all systems.now) }
    requires small { All (λ a. nat_abs a ≤ MOST_DEGREE + 1) x.now }
    ensures { IsAnswer (record { systems = weighted_all systems.now; vectors = vectors.now }) x.now result }
{
    if !is_inside(systems, x) {
        return Coordinates::Outside;
    }
    match coordinates_of(x, vectors) {
        None => Coordinates::Large,
        Some(found) => match Point::new(found.as_slice()) {
            Some(coordinates) => Coordinates::At(coordinates),
            None => unreachable!(),
        },
    }
}
