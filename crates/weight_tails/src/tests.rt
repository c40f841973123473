//! Tests of levels and of the listing.
ghost use Rattle.std.specs.Prelude.{◌≡◌, [], length};
ghost use Rattle.weight_tails.specs.steps.Levels.{AreLevels};

use crate::{add_weight, are_taken_twice, levels_of_none, tails_of};
use lattice_core::{NoMemory, Point};
use std::test::Fail;

/// Lists the tails of 1 1 2, and answers whether these weights take the degree with each of them twice.
fn list(levels: &mut [u8], tails: &mut Vec<Point>) -> Result<bool, NoMemory>
    requires columns { length levels.old ≡ 5 }
    requires none { AreLevels [] levels.old }
{
    add_weight(levels, 0, 1);
    add_weight(levels, 1, 1);
    tails_of(&[1, 1, 2], 4, levels, tails)?;
    Ok(are_taken_twice(&[1, 1, 2], levels, 4))
}

#[test]
fn lists_the_tails_of_a_system(rt: HostRuntime) -> Result<(), Fail> {
    let mut levels = levels_of_none(rt.alloc(), 4)?;
    let mut tails = Vec::new(rt.alloc());
    assert!(rt; list(&mut levels, &mut tails)?);
    let want = [
        [-1, 1],
        [0, 0],
        [1, 0],
        [-1, -1],
        [0, -1],
        [1, -1],
        [2, -1],
        [3, -1],
        [-1, 0],
    ];
    assert_eq!(rt; tails.len(), want.len());
    for row in &want {
        assert!(rt; tails.iter().any(|p| p.entries() == row.as_slice()));
    }
    Ok(())
}

#[test]
fn weight_is_taken_only_once(rt: HostRuntime) -> Result<(), Fail> {
    let levels = levels_of_none(rt.alloc(), 1)?;
    assert!(rt; !are_taken_twice(&[1], &levels, 1));
    assert!(rt; are_taken_twice(&[1], &levels_of_none(rt.alloc(), 2)?, 2));
    Ok(())
}
