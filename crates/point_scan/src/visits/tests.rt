//! A visitor of points of a line that counts down.

ghost use Rattle.std.specs.Prelude.{◌≡◌, [], ◌∷◌, IfOk};
ghost use Rattle.lattice_theory.specs.Examples.{segment};
ghost use Rattle.lattice_theory.proofs.SegmentFacets.{lower, upper};

use super::{Visitor, for_each_dilate};
use crate::points::tests::{ends, facets};
use lattice_core::{NoMemory, Point};
use std::alloc::Global;
use std::test::Fail;

/// How many points it still wants, and the last one that it took.
#[derive(Drop)]
struct Wants {
    more: u64,
    last: i64,
}

impl Visitor for Wants {
    ghost use Rattle.std.specs.Prelude.{⊤};

    ghost dimension = { λ _. 1 };

    ghost visits = { λ _ _ _ _. ⊤ };

    fn visit(&mut self, x: &Point) -> bool {
        self.last = x.entry(0);
        if self.more == 0 {
            return false;
        }
        self.more -= 1;
        true
    }
}

/// Whether all points of the segment's double were taken by one that wants so many, and the last one that it took.
fn taken(alloc: Global, more: u64) -> Result<(bool, i64), NoMemory> {
    let ends = ends(alloc)?;
    let facets = facets(alloc)?;
    let mut wants = Wants { more, last: 0 };
    let all = for_each_dilate(alloc, &ends, &facets, 2, &mut wants)?;
    Ok((all, wants.last))
}

#[test]
fn visits_points_until_there_are_enough(rt: HostRuntime) -> Result<(), Fail> {
    assert_eq!(rt; taken(rt.alloc(), 15)?, (true, 10));
    assert_eq!(rt; taken(rt.alloc(), 3)?, (false, -1));
    Ok(())
}
