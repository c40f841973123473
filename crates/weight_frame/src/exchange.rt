//! One step of the recursion, at one vector.
ghost use Rattle.std.specs.Prelude.{◌≡◌, ℕ, ◌^◌, ◌<◌, ◌≤◌, length, nat_abs, neg_ℤ, MatchResult};
ghost use Rattle.lattice_core.specs.declared.limits.TheConstants.{MOST_WEIGHTS, MOST_FRAME_ENTRY};
ghost use Rattle.weight_frame.specs.Frame.{largest};
ghost use Rattle.weight_frame.specs.steps.Reached.{listed, IsStep, IsStepAbove};

use crate::multiples::sum_of_multiples;
use crate::multipliers::least_multipliers;
use crate::vector::{FrameVector, opposite, zero_vector};

/// What a step makes: a vector of value 0, where there is one, and the vector and the greatest common divisor for the next step.
#[derive(Drop)]
pub(crate) struct Step {
    pub(crate) kept: Option<FrameVector>,
    pub(crate) last: FrameVector,
    pub(crate) divisor: u64,
}

/// The step at the vector `u` of this value, where the values behind are 0.
fn first_step(u: &FrameVector, value: i64, h: &FrameVector) -> Step
    requires within { largest u.now ≤ MOST_FRAME_ENTRY }
    requires most { length u.now ≤ MOST_WEIGHTS }
    requires value { nat_abs value < 2 ^ 55 }
    ensures { IsStep (length u.now) u.now value h.now 0 (listed result.kept) result.last result.divisor }
{
    if value == 0 {
        return Step {
            kept: Some(u.copied()),
            last: zero_vector(u.entries().len()),
            divisor: 0,
        };
    }
    let last = if value > 0 { u.copied() } else { opposite(u) };
    Step {
        kept: None,
        last,
        divisor: value.unsigned_abs(),
    }
}

fn opposite_number(q: i64) -> i128
    ensures { result ≡ neg_ℤ q }
{
    -i128::from(q)
}

/// The step at the vector `u` of this value, where the values behind have a greatest common divisor other than 0.
fn later_step(u: &FrameVector, value: i64, h: &FrameVector, after: u64) -> Result<Step, u128>
    requires same { length u.now ≡ length h.now }
    requires within { largest u.now ≤ MOST_FRAME_ENTRY }
    requires last_within { largest h.now ≤ MOST_FRAME_ENTRY }
    requires value { nat_abs value < 2 ^ 55 }
    requires positive { 0 < after }
    requires small { after < 2 ^ 55 }
    ensures { MatchResult result
        (λ s. IsStep (length u.now) u.now value h.now after (listed s.kept) s.last s.divisor)
        (IsStepAbove (length u.now) u.now value h.now after) }
{
    let multipliers = least_multipliers(value, after);
    let kept = match sum_of_multiples(
        i128::from(multipliers.behind),
        u,
        opposite_number(multipliers.here),
        h,
    ) {
        Ok(kept) => kept,
        Err(told) => return Err(told),
    };
    let last = match sum_of_multiples(i128::from(multipliers.first), u, multipliers.second, h) {
        Ok(last) => last,
        Err(told) => return Err(told),
    };
    Ok(Step {
        kept: Some(kept),
        last,
        divisor: multipliers.divisor,
    })
}

/// The step at the vector `u` of this value. Behind it stand the vector `h` and the greatest common divisor of the values there. Where a vector
/// has an entry above the limit, the largest absolute value of the first such vector is told.
pub(crate) fn stepped(
    u: &FrameVector,
    value: i64,
    h: &FrameVector,
    after: u64,
) -> Result<Step, u128>
    requires same { length u.now ≡ length h.now }
    requires most { length u.now ≤ MOST_WEIGHTS }
    requires within { largest u.now ≤ MOST_FRAME_ENTRY }
    requires last_within { largest h.now ≤ MOST_FRAME_ENTRY }
    requires value { nat_abs value < 2 ^ 55 }
    requires small { after < 2 ^ 55 }
    ensures { MatchResult result
        (λ s. IsStep (length u.now) u.now value h.now after (listed s.kept) s.last s.divisor)
        (IsStepAbove (length u.now) u.now value h.now after) }
{
    if after == 0 {
        return Ok(first_step(u, value, h));
    }
    later_step(u, value, h, after)
}
