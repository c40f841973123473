//! The points of a run.

ghost use Rattle.std.specs.Prelude.{◌≡◌, ◌++◌, ◌+◌, ◌∷◌, [], ◌<◌, ◌≤◌, length, IfOk};
ghost use Rattle.lattice_core.specs.declared.limits.TheConstants.{MOST_COORDINATES};
ghost use Rattle.region_walk.specs.Walks.{IsAtRun, run_points};

use crate::corners::point_of;
use arrayvec::ArrayVec;
use lattice_core::{MOST_COORDINATES, NoMemory, Point};
use region_walk::RegionWalk;

/// The point that begins with these coordinates and has one more.
pub(crate) fn extended(beginning: &[i64], last: i64) -> Point
    requires { length beginning.now < MOST_COORDINATES }
    ensures { result ≡ beginning.now ++ last ∷ [] }
{
    let mut entries = ArrayVec::<i64, MOST_COORDINATES>::new();
    for entry in beginning {
        entries.push(*entry);
    }
    entries.push(last);
    point_of(&entries)
}

/// Appends the points of the walk's run.
pub(crate) fn push_run(walk: &RegionWalk, points: &mut Vec<Point>) -> Result<(), NoMemory>
    requires { IsAtRun walk.now }
    ensures { IfOk result (λ _. points.new.items ≡ points.old.items ++ run_points walk.now) }
{
    let mut last = walk.low();
    for _ in 0..walk.count() {
        points.push(extended(walk.beginning(), last))?;
        last += 1;
    }
    Ok(())
}
