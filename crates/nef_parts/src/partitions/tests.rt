//! The nef partitions of a square's dual.

use super::*;
use dual_pair::{DualPair, Kind, Polytope};
use lattice_core::Point;
use std::test::Fail;

#[test]
fn gives_the_seven_partitions_of_a_square(rt: HostRuntime) -> Result<(), Fail> {
    let alloc = rt.alloc();
    let corners = [
        Point::new(&[-1, -1]).expect(&rt, "two entries"),
        Point::new(&[-1, 1]).expect(&rt, "two entries"),
        Point::new(&[1, -1]).expect(&rt, "two entries"),
        Point::new(&[1, 1]).expect(&rt, "two entries"),
    ];
    let Kind::Reflexive(pair) = DualPair::of(alloc, Polytope::of(alloc, &corners)?)? else {
        return Err(Fail::new("reflexive"));
    };
    let mut search = NefSearch::new(alloc, Masks::of(alloc, &pair)?, 2)?;
    let Some(first) = search.next()? else {
        return Err(Fail::new("a first one"));
    };
    assert_eq!(rt; first.part_of.as_slice(), [0, 0, 0, 1].as_slice());
    assert_eq!(rt;
        first.points.as_slice(),
        [3, 1, 5, 1, 6, 4, 8, 4].as_slice()
    );
    for _ in 0..5 {
        assert!(rt; search.next()?.is_some());
    }
    let Some(last) = search.next()? else {
        return Err(Fail::new("a seventh one"));
    };
    assert_eq!(rt; last.part_of.as_slice(), [0, 1, 1, 1].as_slice());
    assert!(rt; search.next()?.is_none());
    Ok(())
}
