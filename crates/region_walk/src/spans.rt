//! The values of one coordinate at which functions are nonnegative.

ghost use Rattle.std.specs.Prelude.{◌≡◌, ℤ, pos, [], ◌∷◌, ◌++◌, ◌^◌, ◌≤◌, ◌<◌, ◌↔◌, ◌+ℤ◌, ◌*ℤ◌, ◌≤ℤ◌, ◌<ℤ◌, length, nat_abs, IfSome, IfNone};
ghost use Rattle.std.specs.List.{All};
ghost use Rattle.lattice_theory.specs.Affine.{value};
ghost use Rattle.lattice_theory.specs.Size.{absolute_sum};
ghost use Rattle.lattice_theory.specs.Vector.{dot, entry};
ghost use Rattle.region_walk.specs.steps.Spans.{IsBetween, AreNonnegativeAt};
ghost use Rattle.lattice_core.specs.declared.limits.TheConstants.{MOST_COORDINATES};

use lattice_core::{Functional, pair};

/// The integers from one number to another.
#[derive(Clone, Copy)]
pub(crate) struct Span {
    pub(crate) low: i64,
    pub(crate) high: i64,
}

/// The quotient, rounded down. In 64 bits where both numbers fit.
#[inline]
fn floor_quotient(a: i128, b: i128) -> i128
    requires positive { pos 0 <ℤ b }
    ensures { (v : ℤ) → (b *ℤ v) ≤ℤ a ↔ v ≤ℤ result }
{
    match (i64::try_from(a), i64::try_from(b)) {
        (Ok(a), Ok(b)) => i128::from(a.div_euclid(b)),
        _ => a.div_euclid(b),
    }
}

/// The least value at which a rising function isn't negative.
#[inline]
fn least_value(slope: i64, rest: i128) -> i128
    requires rising { pos 0 <ℤ slope }
    requires small { nat_abs rest ≤ 2 ^ 104 }
    ensures { (v : ℤ) → result ≤ℤ v ↔ pos 0 ≤ℤ (slope *ℤ v +ℤ rest) }
{
    -floor_quotient(rest, i128::from(slope))
}

/// The greatest value at which a falling function isn't negative.
#[inline]
fn most_value(slope: i64, rest: i128) -> i128
    requires falling { slope <ℤ pos 0 }
    requires small { nat_abs rest ≤ 2 ^ 104 }
    ensures { (v : ℤ) → v ≤ℤ result ↔ pos 0 ≤ℤ (slope *ℤ v +ℤ rest) }
{
    floor_quotient(rest, -i128::from(slope))
}

/// The values of the span from where the rising function isn't negative any more.
#[inline]
fn raised(span: Span, slope: i64, rest: i128) -> Option<Span>
    requires span { span.low ≤ℤ span.high }
    requires rising { pos 0 <ℤ slope }
    requires small { nat_abs rest ≤ 2 ^ 104 }
    ensures ordered { IfSome result (λ s. s.low ≤ℤ s.high) }
    ensures some { IfSome result (λ s. (v : ℤ) → IsBetween s.low s.high v ↔ IsBetween span.low span.high v × pos 0 ≤ℤ (slope *ℤ v +ℤ rest)) }
    ensures none { IfNone result ((v : ℤ) → IsBetween span.low span.high v → pos 0 ≤ℤ (slope *ℤ v +ℤ rest) → ⊥) }
{
    let least = least_value(slope, rest);
    if least <= i128::from(span.low) {
        Some(span)
    } else if least <= i128::from(span.high) {
        Some(Span {
            low: least as i64,
            high: span.high,
        })
    } else {
        None
    }
}

/// The values of the span up to where the falling function isn't negative yet.
#[inline]
fn lowered(span: Span, slope: i64, rest: i128) -> Option<Span>
    requires span { span.low ≤ℤ span.high }
    requires falling { slope <ℤ pos 0 }
    requires small { nat_abs rest ≤ 2 ^ 104 }
    ensures ordered { IfSome result (λ s. s.low ≤ℤ s.high) }
    ensures some { IfSome result (λ s. (v : ℤ) → IsBetween s.low s.high v ↔ IsBetween span.low span.high v × pos 0 ≤ℤ (slope *ℤ v +ℤ rest)) }
    ensures none { IfNone result ((v : ℤ) → IsBetween span.low span.high v → pos 0 ≤ℤ (slope *ℤ v +ℤ rest) → ⊥) }
{
    let most = most_value(slope, rest);
    if most >= i128::from(span.high) {
        Some(span)
    } else if most >= i128::from(span.low) {
        Some(Span {
            low: span.low,
            high: most as i64,
        })
    } else {
        None
    }
}

/// The function's value at a value of the coordinate.
#[inline]
fn value_with(slope: i64, rest: i128, value: i64) -> i128
    requires { nat_abs rest ≤ 2 ^ 104 }
    ensures { result ≡ slope *ℤ value +ℤ rest }
{
    i128::from(slope) * i128::from(value) + rest
}

/// The values of the span from where the rising function isn't negative any more. Nothing is divided where these are all.
#[inline]
fn cut_from_below(span: Span, slope: i64, rest: i128) -> Option<Span>
    requires span { span.low ≤ℤ span.high }
    requires rising { pos 0 <ℤ slope }
    requires small { nat_abs rest ≤ 2 ^ 104 }
    ensures ordered { IfSome result (λ s. s.low ≤ℤ s.high) }
    ensures some { IfSome result (λ s. (v : ℤ) → IsBetween s.low s.high v ↔ IsBetween span.low span.high v × pos 0 ≤ℤ (slope *ℤ v +ℤ rest)) }
    ensures none { IfNone result ((v : ℤ) → IsBetween span.low span.high v → pos 0 ≤ℤ (slope *ℤ v +ℤ rest) → ⊥) }
{
    if value_with(slope, rest, span.low) >= 0 {
        return Some(span);
    }
    raised(span, slope, rest)
}

/// The values of the span up to where the falling function isn't negative yet. Nothing is divided where these are all.
#[inline]
fn cut_from_above(span: Span, slope: i64, rest: i128) -> Option<Span>
    requires span { span.low ≤ℤ span.high }
    requires falling { slope <ℤ pos 0 }
    requires small { nat_abs rest ≤ 2 ^ 104 }
    ensures ordered { IfSome result (λ s. s.low ≤ℤ s.high) }
    ensures some { IfSome result (λ s. (v : ℤ) → IsBetween s.low s.high v ↔ IsBetween span.low span.high v × pos 0 ≤ℤ (slope *ℤ v +ℤ rest)) }
    ensures none { IfNone result ((v : ℤ) → IsBetween span.low span.high v → pos 0 ≤ℤ (slope *ℤ v +ℤ rest) → ⊥) }
{
    if value_with(slope, rest, span.high) >= 0 {
        return Some(span);
    }
    lowered(span, slope, rest)
}

/// The values of the span at which the function isn't negative.
#[inline]
fn cut(span: Span, slope: i64, rest: i128) -> Option<Span>
    requires span { span.low ≤ℤ span.high }
    requires small { nat_abs rest ≤ 2 ^ 104 }
    ensures ordered { IfSome result (λ s. s.low ≤ℤ s.high) }
    ensures some { IfSome result (λ s. (v : ℤ) → IsBetween s.low s.high v ↔ IsBetween span.low span.high v × pos 0 ≤ℤ (slope *ℤ v +ℤ rest)) }
    ensures none { IfNone result ((v : ℤ) → IsBetween span.low span.high v → pos 0 ≤ℤ (slope *ℤ v +ℤ rest) → ⊥) }
{
    if slope > 0 {
        cut_from_below(span, slope, rest)
    } else if slope < 0 {
        cut_from_above(span, slope, rest)
    } else if rest >= 0 {
        Some(span)
    } else {
        None
    }
}

/// The value of a function at the beginning of a vector, as if the further coordinates were 0.
#[inline]
fn value_of_beginning(function: &Functional, beginning: &[i64]) -> i128
    requires place { length beginning.now ≤ length function.now.normal }
    requires most { length beginning.now ≤ MOST_COORDINATES }
    requires small { absolute_sum beginning.now ≤ 2 ^ 40 }
    requires constant { nat_abs function.now.constant ≤ 2 ^ 103 }
    ensures value { result ≡ value function.now beginning.now }
    ensures small { nat_abs result ≤ 2 ^ 104 }
{
    pair(&function.normal()[..beginning.len()], beginning) + function.constant()
}

/// The values of a span which extend the beginning of a vector by one coordinate at which no function is negative, or `None` where there are
/// none. Functions of further coordinates are taken as if those were 0.
pub(crate) fn span_behind(functions: &[Functional], beginning: &[i64], span: Span) -> Option<Span>
    requires place { All (λ f. length beginning.now < length f.normal) functions.now }
    requires most { length beginning.now ≤ MOST_COORDINATES }
    requires small { absolute_sum beginning.now ≤ 2 ^ 40 }
    requires constants { All (λ f. nat_abs f.constant ≤ 2 ^ 103) functions.now }
    requires span { span.low ≤ℤ span.high }
    ensures ordered { IfSome result (λ s. s.low ≤ℤ s.high) }
    ensures some { IfSome result (λ s. (v : ℤ) → IsBetween s.low s.high v
        ↔ IsBetween span.low span.high v × AreNonnegativeAt functions.now (beginning.now ++ v ∷ [])) }
    ensures none { IfNone result ((v : ℤ) → IsBetween span.low span.high v → AreNonnegativeAt functions.now (beginning.now ++ v ∷ []) → ⊥) }
{
    let mut left = span;
    for function in functions {
        let slope = function.normal()[beginning.len()];
        let rest = value_of_beginning(function, beginning);
        match cut(left, slope, rest) {
            Some(kept) => left = kept,
            None => return None,
        }
    }
    Some(left)
}
