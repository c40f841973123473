//! The points of a triangle.

ghost use Rattle.std.specs.Prelude.{◌≡◌, [], ◌∷◌};

use super::RegionWalk;
use crate::region::Region;
use lattice_core::{Functional, NoMemory, Point};
use std::alloc::Global;
use std::test::Fail;

/// The point (x, y).
fn point(x: i64, y: i64) -> Point
    ensures { result ≡ x ∷ y ∷ [] }
{
    match Point::new(&[x, y]) {
        Some(point) => point,
        None => unreachable!(),
    }
}

/// The function `a x + b y + c`.
fn function(a: i64, b: i64, c: i128) -> Functional
    ensures normal { result.normal ≡ a ∷ b ∷ [] }
    ensures constant { result.constant ≡ c }
{
    match Functional::new(&[a, b], c) {
        Some(function) => function,
        None => unreachable!(),
    }
}

/// Where the first two runs of points begin, and the last values of the second coordinate there.
fn runs(alloc: Global) -> Result<Option<[i64; 4]>, NoMemory> {
    let mut triangle = Region::new(alloc, point(0, 0), point(2, 2))?;
    triangle.add(function(-1, -1, 2))?;
    let Some(mut walk) = RegionWalk::start(triangle) else {
        return Ok(None);
    };
    let (low, high) = (walk.low(), walk.high());
    if !walk.advance() {
        return Ok(None);
    }
    Ok(Some([low, high, walk.low(), walk.high()]))
}

#[test]
fn goes_from_run_to_run(rt: HostRuntime) -> Result<(), Fail> {
    let found = runs(rt.alloc())?;
    assert_eq!(rt; found, Some([0, 2, 0, 1]));
    Ok(())
}
