//! Pairs of a few polytopes.
use crate::{DualPair, Kind, Polytope};
use lattice_core::{Fault, LimitName, Point, Refusal};
use std::test::Fail;

#[test]
fn pairs_a_triangle_with_its_dual(rt: HostRuntime) -> Result<(), Fail> {
    let points = [
        Point::new(&[1, 0]).expect(&rt, "two entries"),
        Point::new(&[0, 1]).expect(&rt, "two entries"),
        Point::new(&[-1, -1]).expect(&rt, "two entries"),
    ];
    let Kind::Reflexive(pair) = DualPair::of(rt.alloc(), Polytope::of(rt.alloc(), &points)?)? else {
        return Err(Fail::new("reflexive"));
    };
    assert_eq!(rt; pair.m().points().len(), 4);
    assert_eq!(rt; pair.n().points().len(), 10);
    assert_eq!(rt; pair.n().vertices().len(), 3);
    assert_eq!(rt; pair.n().vertices()[0].entries(), [-1, -1].as_slice());
    assert_eq!(rt; pair.n().vertices()[1].entries(), [-1, 2].as_slice());
    assert_eq!(rt; pair.n().vertices()[2].entries(), [2, -1].as_slice());
    assert_eq!(rt; pair.n().facets().len(), 3);
    assert_eq!(rt; pair.n().facets()[0].normal(), [-1, -1].as_slice());
    assert_eq!(rt; pair.n().facets()[1].normal(), [0, 1].as_slice());
    assert_eq!(rt; pair.n().facets()[2].normal(), [1, 0].as_slice());
    let swapped = pair.swap();
    assert_eq!(rt; swapped.m().points().len(), 10);
    assert_eq!(rt; swapped.n().points().len(), 4);
    Ok(())
}

#[test]
fn hands_back_what_has_constants_of_two(rt: HostRuntime) -> Result<(), Fail> {
    let points = [
        Point::new(&[2, 0]).expect(&rt, "two entries"),
        Point::new(&[0, 2]).expect(&rt, "two entries"),
        Point::new(&[-2, 0]).expect(&rt, "two entries"),
        Point::new(&[0, -2]).expect(&rt, "two entries"),
    ];
    let Kind::Other(diamond) = DualPair::of(rt.alloc(), Polytope::of(rt.alloc(), &points)?)? else {
        return Err(Fail::new("not reflexive"));
    };
    assert_eq!(rt; diamond.vertices().len(), 4);
    Ok(())
}

#[test]
fn refuses_a_large_dual(rt: HostRuntime) -> Result<(), Fail> {
    let points = [
        Point::new(&[1, -600_000_000]).expect(&rt, "two entries"),
        Point::new(&[0, 1]).expect(&rt, "two entries"),
        Point::new(&[-1, 599_999_999]).expect(&rt, "two entries"),
    ];
    let size = Fault::Refused(Refusal::Limit(LimitName::DualSize, 1_200_000_001));
    assert_eq!(rt;
        DualPair::of(rt.alloc(), Polytope::of(rt.alloc(), &points)?).err(),
        Some(size)
    );
    Ok(())
}

#[test]
fn refuses_a_dual_of_many_points(rt: HostRuntime) -> Result<(), Fail> {
    let points = [
        Point::new(&[1, 0, 0, 0, 0]).expect(&rt, "five entries"),
        Point::new(&[0, 1, 0, 0, 0]).expect(&rt, "five entries"),
        Point::new(&[0, 0, 1, 0, 0]).expect(&rt, "five entries"),
        Point::new(&[0, 0, 0, 1, 0]).expect(&rt, "five entries"),
        Point::new(&[0, 0, 0, 0, 1]).expect(&rt, "five entries"),
        Point::new(&[-1, -1, -18, -42, -63]).expect(&rt, "five entries"),
    ];
    let many = Fault::Refused(Refusal::Limit(LimitName::DualPoints, 16_385));
    assert_eq!(rt;
        DualPair::of(rt.alloc(), Polytope::of(rt.alloc(), &points)?).err(),
        Some(many)
    );
    Ok(())
}
