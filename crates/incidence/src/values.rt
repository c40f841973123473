//! Rows of the values of functions at points: a point is tight on a function where its value is 0.
ghost use Rattle.std.specs.Prelude.{◌≡◌, ◌↔◌, ◌+◌, ◌*◌, ◌^◌, ◌<◌, ◌≤◌, length, nat_abs, pos, IsTrue};
ghost use Rattle.std.specs.List.{All};
ghost use Rattle.lattice_theory.specs.Affine.{value};
ghost use Rattle.lattice_core.specs.ValueWidths.{FitsWidth};
ghost use Rattle.bit_pool.specs.declared.limits.TheConstants.{MOST_WIDTH};
ghost use Rattle.face_theory.specs.Pairings.{is_zero, vector_at, function_at};
ghost use Rattle.incidence.specs.Incidences.{HasExactly, HaveValues};
ghost use Rattle.incidence.specs.RowSteps.{AddsRows, IsSmall, Suits, IsMembersRow, IsFunctionsRow};

use crate::words::{push_words, put_bit};
use bit_pool::RowPool;
use lattice_core::{Functional, Point, Width, size_of};

/// Whether the function's entries are at most so large, and its constant is below 2^62.
fn is_small(f: &Functional, bound: u64) -> bool
    ensures { IsTrue result ↔ IsSmall bound f.now }
{
    f.constant().unsigned_abs() < 1 << 62 && f.normal().iter().all(|a| a.unsigned_abs() <= bound)
}

/// Whether all of these functions are.
fn are_small(functions: &[Functional], bound: u64) -> bool
    ensures { IsTrue result ↔ All (IsSmall bound) functions.now }
{
    functions.iter().all(|f| is_small(f, bound))
}

/// A width in which all values can be worked out: 64 bits where the numbers are small enough for it.
pub fn width_for(points: &[Point], functions: &[Functional]) -> Width
    requires { HaveValues points.now functions.now }
    ensures { Suits result points.now functions.now }
{
    if functions.is_empty() {
        return Width::Wide;
    }
    let size = size_of(functions[0].dim(), points);
    if size >= 1 << 62 {
        return Width::Wide;
    }
    if are_small(functions, (1 << 62) / (size as u64 + 1)) {
        Width::Narrow
    } else {
        Width::Wide
    }
}

/// Whether a function is 0 at a point.
#[inline]
fn lies_on(p: &Point, f: &Functional, width: Width) -> bool
    requires dimension { length f.now.normal ≡ length p.now }
    requires fits { FitsWidth width f.now p.now }
    ensures { IsTrue result ↔ (value f.now p.now ≡ pos 0) }
{
    f.value_at(p, width) == 0
}

/// Writes the words of the functions that are 0 at a point into words that have room for them.
pub fn zeros_into(words: &mut [u64], p: &Point, functions: &[Functional], width: Width)
    requires room { length functions.now ≤ 64 * length words.old }
    requires dimension { All (λ f. length f.normal ≡ length p.now) functions.now }
    requires fits { All (λ f. FitsWidth width f p.now) functions.now }
    ensures whole { length words.new ≡ length words.old }
    ensures bits { HasExactly (length functions.now) (λ f. is_zero (value (function_at functions.now f) p.now)) words.new }
{
    words.fill(0);
    for f in 0..functions.len() {
        if lies_on(p, &functions[f], width) {
            put_bit(words, f);
        }
    }
}

/// The words of the functions that are 0 at a point.
fn functions_on(p: &Point, functions: &[Functional], width: Width) -> [u64; 64]
    requires most { length functions.now ≤ MOST_WIDTH }
    requires dimension { All (λ f. length f.normal ≡ length p.now) functions.now }
    requires fits { All (λ f. FitsWidth width f p.now) functions.now }
    ensures whole { length result ≡ 64 }
    ensures bits { HasExactly (length functions.now) (λ f. is_zero (value (function_at functions.now f) p.now)) result }
{
    let mut words = [0; 64];
    zeros_into(&mut words, p, functions, width);
    words
}

/// The words of the points at which a function is 0.
fn members_on(f: &Functional, points: &[Point], width: Width) -> [u64; 64]
    requires most { length points.now ≤ MOST_WIDTH }
    requires dimension { All (λ p. length f.now.normal ≡ length p) points.now }
    requires fits { All (λ p. FitsWidth width f.now p) points.now }
    ensures whole { length result ≡ 64 }
    ensures bits { HasExactly (length points.now) (λ m. is_zero (value f.now (vector_at points.now m))) result }
{
    let mut words = [0; 64];
    for m in 0..points.len() {
        if lies_on(&points[m], f, width) {
            put_bit(&mut words, m);
        }
    }
    words
}

/// Adds a row for each point: the functions that are 0 there.
pub(crate) fn push_members(
    pool: &mut RowPool,
    points: &[Point],
    functions: &[Functional],
    width: Width,
)
    requires most { length functions.now ≤ MOST_WIDTH }
    requires fits { length functions.now ≤ pool.old.width }
    requires room { length pool.old.young_generation.rows + length points.now ≤ pool.old.young_generation.reserved }
    requires values { HaveValues points.now functions.now }
    requires suits { Suits width points.now functions.now }
    ensures { AddsRows pool.old pool.new (length points.now) (IsMembersRow points.now functions.now) }
{
    for m in 0..points.len() {
        push_words(pool, &functions_on(&points[m], functions, width));
    }
}

/// Adds a row for each function: the points at which it is 0.
pub(crate) fn push_functions(
    pool: &mut RowPool,
    points: &[Point],
    functions: &[Functional],
    width: Width,
)
    requires most { length points.now ≤ MOST_WIDTH }
    requires fits { length points.now ≤ pool.old.width }
    requires room { length pool.old.young_generation.rows + length functions.now ≤ pool.old.young_generation.reserved }
    requires values { HaveValues points.now functions.now }
    requires suits { Suits width points.now functions.now }
    ensures { AddsRows pool.old pool.new (length functions.now) (IsFunctionsRow points.now functions.now) }
{
    for f in 0..functions.len() {
        push_words(pool, &members_on(&functions[f], points, width));
    }
}
