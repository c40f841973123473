//! The numbers of the quartic and the quintic, and of their mirrors.
use crate::{HodgeLine, hodge};
use bit_pool::RowPool;
use dual_pair::{DualPair, Kind, Polytope};
use face_poset::FaceTable;
use lattice_core::Point;
use std::alloc::Global;
use std::test::Fail;

/// The numbers of a pair.
fn numbers(alloc: Global, pair: &DualPair) -> Result<HodgeLine, Fail> {
    if pair.m().vertices().len() > 128 {
        return Err(Fail::new("few vertices"));
    }
    if pair.m().facets().len() > 128 {
        return Err(Fail::new("few facets"));
    }
    let mut pool = RowPool::open(alloc, 128, 256)?;
    let mut table = FaceTable::open(alloc, 128, 128)?;
    match pair.faces(&mut table, &mut pool) {
        Ok(()) => Ok(hodge(pair, &table)),
        Err(_) => Err(Fail::new("few faces")),
    }
}

#[test]
fn tells_the_quintic_and_its_mirror(rt: HostRuntime) -> Result<(), Fail> {
    let points = [
        Point::new(&[1, 0, 0, 0]).expect(&rt, "four entries"),
        Point::new(&[0, 1, 0, 0]).expect(&rt, "four entries"),
        Point::new(&[0, 0, 1, 0]).expect(&rt, "four entries"),
        Point::new(&[0, 0, 0, 1]).expect(&rt, "four entries"),
        Point::new(&[-1, -1, -1, -1]).expect(&rt, "four entries"),
    ];
    let Kind::Reflexive(pair) = DualPair::of(rt.alloc(), Polytope::of(rt.alloc(), &points)?)? else {
        return Err(Fail::new("reflexive"));
    };
    let mirror = HodgeLine::Three {
        h11: 101,
        h21: 1,
        euler: 200,
    };
    assert_eq!(rt; numbers(rt.alloc(), &pair)?, mirror);
    let quintic = HodgeLine::Three {
        h11: 1,
        h21: 101,
        euler: -200,
    };
    assert_eq!(rt; numbers(rt.alloc(), &pair.swap())?, quintic);
    Ok(())
}

#[test]
fn tells_the_quartic_and_its_mirror(rt: HostRuntime) -> Result<(), Fail> {
    let points = [
        Point::new(&[1, 0, 0]).expect(&rt, "three entries"),
        Point::new(&[0, 1, 0]).expect(&rt, "three entries"),
        Point::new(&[0, 0, 1]).expect(&rt, "three entries"),
        Point::new(&[-1, -1, -1]).expect(&rt, "three entries"),
    ];
    let Kind::Reflexive(pair) = DualPair::of(rt.alloc(), Polytope::of(rt.alloc(), &points)?)? else {
        return Err(Fail::new("reflexive"));
    };
    let mirror = HodgeLine::Pic { pic: 19, cor: 0 };
    assert_eq!(rt; numbers(rt.alloc(), &pair)?, mirror);
    let quartic = HodgeLine::Pic { pic: 1, cor: 0 };
    assert_eq!(rt; numbers(rt.alloc(), &pair.swap())?, quartic);
    Ok(())
}
