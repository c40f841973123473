//! Regions.

ghost use Rattle.std.specs.Prelude.{◌≡◌, ℕ, ℤ, ◌^◌, ◌<◌, ◌≤◌, ◌↔◌, ◌+◌, [], ◌∷◌, ◌++◌, length, nat_abs, pos, ◌≤ℤ◌, List, IfOk, IfSome, IfNone};
ghost use Rattle.std.specs.List.{All};
ghost use Rattle.lattice_theory.specs.Affine.{value};
ghost use Rattle.lattice_theory.specs.Grid.{IsInBox};
ghost use Rattle.lattice_theory.specs.Size.{absolute_sum};
ghost use Rattle.lattice_theory.specs.Vector.{entry};
ghost use Rattle.lattice_core.specs.declared.limits.TheConstants.{MOST_COORDINATES};
ghost use Rattle.region_walk.specs.Regions.{IsInRegion, IsSoundRegion, levels_of};
ghost use Rattle.region_walk.specs.steps.Beginnings.{MeetsLevel};
ghost use Rattle.region_walk.specs.steps.Spans.{IsBetween};

use crate::spans::{Span, span_behind};
use lattice_core::{Functional, NoMemory, Point};
use std::alloc::Global;

/// The integer points of a box at which some affine functions are nonnegative. The functions are kept in levels: those of the level k have no
/// factor behind the coordinate k, counted from 0.
#[derive(Drop)]
pub struct Region {
    low: Point,
    high: Point,
    levels: Vec<Vec<Functional>>,
}

/// The place of the last entry of a normal that isn't 0, or 0 where all are.
fn level_of(normal: &[i64]) -> usize
    requires { 1 ≤ length normal.now }
    ensures within { result < length normal.now }
    ensures ends { (j : ℕ) → result < j → entry normal.now j ≡ pos 0 }
{
    for k in (0..normal.len()).rev() {
        if normal[k] != 0 {
            return k;
        }
    }
    0
}

impl Region {
    /// All integer points from the lowest corner of a box to its highest one. The absolute values of either corner's entries sum to at most
    /// 2^33.
    pub fn new(alloc: Global, low: Point, high: Point) -> Result<Region, NoMemory>
        requires inside { IsInBox low high low }
        requires small_low { absolute_sum low ≤ 2 ^ 33 }
        requires small_high { absolute_sum high ≤ 2 ^ 33 }
        ensures sound { IfOk result IsSoundRegion }
        ensures dimension { IfOk result (λ r. length r.low ≡ length low) }
        ensures members { IfOk result (λ r. (x : List ℤ) → IsInRegion r x ↔ IsInBox low high x) }
    {
        let mut levels = Vec::new(alloc);
        for _ in 0..low.dim() {
            levels.push(Vec::new(alloc))?;
        }
        Ok(Region { low, high, levels })
    }

    /// Leaves out the points at which the function is negative. Its constant is at most 2^103 in absolute value.
    pub fn add(&mut self, function: Functional) -> Result<(), NoMemory>
        requires sound { IsSoundRegion self.old }
        requires dimension { length function.normal ≡ length self.old.low }
        requires constant { nat_abs function.constant ≤ 2 ^ 103 }
        ensures sound { IfOk result (λ _. IsSoundRegion self.new) }
        ensures dimension { length self.new.low ≡ length self.old.low }
        ensures members { IfOk result (λ _. (x : List ℤ) → IsInRegion self.new x ↔ IsInRegion self.old x × pos 0 ≤ℤ value function x) }
    {
        let level = level_of(function.normal());
        self.levels[level].push(function)?;
        Ok(())
    }

    /// The number of coordinates, 1 to 6.
    pub fn dim(&self) -> usize
        ensures { result ≡ length self.now.low }
    {
        self.low.dim()
    }

    /// The values that extend the beginning of a vector by one coordinate and meet the level of that, or `None` where there are none.
    pub(crate) fn span_behind(&self, beginning: &[i64]) -> Option<Span>
        requires sound { IsSoundRegion self.now }
        requires short { length beginning.now < length self.now.low }
        requires small { absolute_sum beginning.now ≤ 2 ^ 40 }
        ensures ordered { IfSome result (λ s. s.low ≤ℤ s.high) }
        ensures some { IfSome result (λ s. (v : ℤ) → IsBetween s.low s.high v
            ↔ MeetsLevel self.now.low self.now.high (levels_of self.now) (length beginning.now) (beginning.now ++ v ∷ [])) }
        ensures none { IfNone result ((v : ℤ)
            → MeetsLevel self.now.low self.now.high (levels_of self.now) (length beginning.now) (beginning.now ++ v ∷ []) → ⊥) }
    {
        let k = beginning.len();
        let span = Span {
            low: self.low.entry(k),
            high: self.high.entry(k),
        };
        span_behind(&self.levels[k], beginning, span)
    }
}
