//! Walking through a region in lexicographic order.

ghost use Rattle.std.specs.Prelude.{◌≡◌, ◌<◌, ◌≤◌, ◌+◌, ◌^◌, [], ◌∷◌, ◌++◌, length, List, ℤ, IfSome, IfNone, IsTrue};
ghost use Rattle.lattice_theory.specs.Grid.{Follows};
ghost use Rattle.lattice_core.specs.declared.limits.TheConstants.{MOST_COORDINATES};
ghost use Rattle.region_walk.specs.Regions.{IsInRegion, IsSoundRegion, levels_of};
ghost use Rattle.region_walk.specs.Walks.{IsAtRun, IsAtFirst, first_point, last_point, run_points};
ghost use Rattle.region_walk.specs.steps.Beginnings.{IsBeginning, HasNoneFrom};
ghost use Rattle.region_walk.specs.steps.Looks.{MeansFound, FindsRun};

use crate::beginning::Beginning;
use crate::region::Region;
use crate::spans::Span;

/// What a look finds.
#[derive(Clone, Copy)]
enum Found {
    /// The next run of points.
    Run(Span),
    /// A beginning that is further on.
    Further,
    /// No more points.
    Nothing,
}

/// Takes the next run of points from the beginning on, or goes to a further beginning before which there are none.
fn look(region: &Region, beginning: &mut Beginning) -> Found
    requires sound { IsSoundRegion region.now }
    requires open { IsBeginning region.now.low region.now.high (levels_of region.now) beginning.old.entries.items beginning.old.ends.items }
    ensures { MeansFound region.now.low region.now.high (levels_of region.now) beginning.old.entries.items beginning.new.entries.items
        beginning.new.ends.items result }
{
    match region.span_behind(beginning.entries()) {
        Some(span) => {
            if beginning.entries().len() + 1 == region.dim() {
                return Found::Run(span);
            }
            beginning.extend(span);
            Found::Further
        }
        None => {
            if beginning.step() {
                Found::Further
            } else {
                Found::Nothing
            }
        }
    }
}

/// Goes to the first run of points from the beginning on.
fn find_run(region: &Region, beginning: &mut Beginning) -> Option<Span>
    requires sound { IsSoundRegion region.now }
    requires open { IsBeginning region.now.low region.now.high (levels_of region.now) beginning.old.entries.items beginning.old.ends.items }
    ensures some { IfSome result (λ s. FindsRun region.now.low region.now.high (levels_of region.now) beginning.old.entries.items
        beginning.new.entries.items beginning.new.ends.items s.low s.high) }
    ensures none { IfNone result (HasNoneFrom region.now.low region.now.high (levels_of region.now) beginning.old.entries.items) }
{
    loop {
        match look(region, beginning) {
            Found::Run(span) => return Some(span),
            Found::Further => {}
            Found::Nothing => return None,
        }
    }
}

/// A run of points of a region: those with the same coordinates but the last, which goes from one number to another.
#[derive(Drop)]
pub struct RegionWalk {
    region: Region,
    beginning: Beginning,
    run: Span,
}

impl RegionWalk {
    /// The first run of the region, or `None` where the region is empty.
    pub fn start(region: Region) -> Option<RegionWalk>
        requires { IsSoundRegion region }
        ensures region { IfSome result (λ w. w.region ≡ region) }
        ensures run { IfSome result IsAtRun }
        ensures first { IfSome result IsAtFirst }
        ensures none { IfNone result ((x : List ℤ) → IsInRegion region x → ⊥) }
    {
        let mut beginning = Beginning::new();
        match find_run(&region, &mut beginning) {
            Some(run) => Some(RegionWalk {
                region,
                beginning,
                run,
            }),
            None => None,
        }
    }

    /// Goes on to the next run, and answers whether there is one. Where there is none, the place is lost.
    pub fn advance(&mut self) -> bool
        requires { IsAtRun self.old }
        ensures run { IsTrue result → IsAtRun self.new }
        ensures region { self.new.region ≡ self.old.region }
        ensures next { Follows (IsInRegion self.old.region) (last_point self.old) (first_point self.new) result }
    {
        if !self.beginning.step() {
            return false;
        }
        match find_run(&self.region, &mut self.beginning) {
            Some(run) => {
                self.run = run;
                true
            }
            None => false,
        }
    }

    /// The coordinates of the run's points but the last one.
    #[inline]
    pub fn beginning(&self) -> &[i64]
        ensures { result.now ≡ self.now.beginning.entries.items }
    {
        self.beginning.entries()
    }

    /// The least value of the last coordinate.
    #[inline]
    pub fn low(&self) -> i64
        ensures { result ≡ self.now.run.low }
    {
        self.run.low
    }

    /// Its greatest value.
    #[inline]
    pub fn high(&self) -> i64
        ensures { result ≡ self.now.run.high }
    {
        self.run.high
    }

    /// The number of the run's points, at most 2^34 + 1.
    #[inline]
    pub fn count(&self) -> u64
        requires { IsAtRun self.now }
        ensures points { result ≡ length (run_points self.now) }
        ensures bound { result ≤ 2 ^ 34 + 1 }
    {
        (self.run.high - self.run.low).unsigned_abs() + 1
    }
}

#[cfg(test)]
mod tests;
