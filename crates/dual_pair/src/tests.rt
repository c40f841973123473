//! Polytopes of a few points.

use crate::Polytope;
use lattice_core::{Fault, Functional, Point, Refusal};
use std::test::Fail;

#[test]
fn makes_the_polytope_of_a_triangle(rt: HostRuntime) -> Result<(), Fail> {
    let points = [
        Point::new(&[1, 0]).expect(&rt, "two entries"),
        Point::new(&[0, 1]).expect(&rt, "two entries"),
        Point::new(&[-1, -1]).expect(&rt, "two entries"),
    ];
    let triangle = Polytope::of(rt.alloc(), &points)?;
    assert_eq!(rt; triangle.dim(), 2);
    assert_eq!(rt; triangle.vertices().len(), 3);
    assert_eq!(rt; triangle.facets().len(), 3);
    assert_eq!(rt; triangle.points().len(), 4);
    assert_eq!(rt; triangle.points()[0].entries(), [-1, -1].as_slice());
    assert_eq!(rt; triangle.points()[1].entries(), [0, 0].as_slice());
    assert_eq!(rt; triangle.points()[2].entries(), [0, 1].as_slice());
    assert_eq!(rt; triangle.points()[3].entries(), [1, 0].as_slice());
    assert!(rt; triangle.is_reflexive());
    Ok(())
}

#[test]
fn asks_for_constants_of_one(rt: HostRuntime) -> Result<(), Fail> {
    let points = [
        Point::new(&[2, 0]).expect(&rt, "two entries"),
        Point::new(&[0, 2]).expect(&rt, "two entries"),
        Point::new(&[-2, 0]).expect(&rt, "two entries"),
        Point::new(&[0, -2]).expect(&rt, "two entries"),
    ];
    assert!(rt; !Polytope::of(rt.alloc(), &points)?.is_reflexive());
    Ok(())
}

#[test]
fn refuses_flat_points(rt: HostRuntime) -> Result<(), Fail> {
    let points = [
        Point::new(&[0, 0]).expect(&rt, "two entries"),
        Point::new(&[1, 1]).expect(&rt, "two entries"),
    ];
    let flat = Functional::new(&[-1, 1], 0).expect(&rt, "two entries");
    let refused = Fault::Refused(Refusal::Flat(flat));
    assert_eq!(rt; Polytope::of(rt.alloc(), &points).err(), Some(refused));
    Ok(())
}

#[test]
fn takes_lattice_points_as_they_are(rt: HostRuntime) -> Result<(), Fail> {
    let mut points = Vec::new(rt.alloc());
    points.push(Point::new(&[0]).expect(&rt, "one entry"))?;
    points.push(Point::new(&[1]).expect(&rt, "one entry"))?;
    let segment = Polytope::of_lattice_points(rt.alloc(), points)?;
    assert_eq!(rt; segment.dim(), 1);
    assert_eq!(rt; segment.points().len(), 2);
    assert!(rt; !segment.is_reflexive());
    Ok(())
}
