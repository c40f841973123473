//! Limits of a triangle, the vectors of a segment's cone, and the cone of a triangle's partition.
use crate::vectors::{functions_of, members_of};
use crate::{Cone, found_are_partitions, rank_limits, scan_limits};
use bit_pool::{RowId, RowPool};
use dual_pair::{DualPair, Kind, Polytope};
use lattice_core::{Fault, LimitName, Point, Refusal};
use nef_parts::{Masks, NefSearch};
use std::alloc::Global;
use std::test::Fail;

#[test]
fn lets_one_part_of_a_triangle_pass_and_not_two(rt: HostRuntime) -> Result<(), Fail> {
    let points = [
        Point::new(&[1, 0]).expect(&rt, "two entries"),
        Point::new(&[0, 1]).expect(&rt, "two entries"),
        Point::new(&[-1, -1]).expect(&rt, "two entries"),
    ];
    let Kind::Reflexive(pair) = DualPair::of(rt.alloc(), Polytope::of(rt.alloc(), &points)?)? else {
        return Err(Fail::new("reflexive"));
    };
    assert_eq!(rt; rank_limits(&pair, 1), Ok(()));
    assert_eq!(rt; scan_limits(rt.alloc(), &pair, 1), Ok(()));
    assert_eq!(rt;
        rank_limits(&pair, 2),
        Err(Refusal::Limit(LimitName::Codim, 2))
    );
    let told = Fault::Refused(Refusal::Limit(LimitName::Codim, 2));
    assert_eq!(rt; scan_limits(rt.alloc(), &pair, 2), Err(told));
    Ok(())
}

#[test]
fn keeps_the_vectors_of_a_segment_in_order(rt: HostRuntime) -> Result<(), Fail> {
    let ends = [
        Point::new(&[-1]).expect(&rt, "one entry"),
        Point::new(&[1]).expect(&rt, "one entry"),
    ];
    let members = members_of(rt.alloc(), &ends, &[1, 0, 1], 1)?;
    assert_eq!(rt; members.len(), 2);
    assert_eq!(rt; members[0].normal(), [-1].as_slice());
    assert_eq!(rt; members[1].normal(), [1].as_slice());
    let functions = functions_of(rt.alloc(), &ends, &[0, 1], 2)?;
    assert_eq!(rt; functions.len(), 4);
    for (function, (entry, constant)) in functions.iter().zip([(-1, 0), (0, -1), (0, 0), (1, -1)]) {
        assert_eq!(rt; function.normal(), [entry].as_slice());
        assert_eq!(rt; function.constant(), constant);
    }
    Ok(())
}

/// The cone of a pair's first nef partition into two parts.
fn first_cone(alloc: Global, pair: &DualPair) -> Result<Cone, Fail> {
    let masks = Masks::of(alloc, pair)?;
    let mut search = NefSearch::new(alloc, masks, 2)?;
    let Some(partition) = search.next()? else {
        return Err(Fail::new("a partition"));
    };
    found_are_partitions();
    Ok(Cone::of(alloc, pair, &partition)?)
}

/// A pool with the rows of a cone of at most 6 rays and functions.
fn rows_of(alloc: Global, cone: &Cone) -> Result<RowPool, Fail> {
    if cone.rays() > 6 {
        return Err(Fail::new("few rays"));
    }
    if cone.functions() > 6 {
        return Err(Fail::new("few functions"));
    }
    let mut pool = RowPool::open(alloc, 6, 12)?;
    cone.incidence(&mut pool)?;
    Ok(pool)
}

#[test]
fn tells_which_vectors_of_a_cone_pair_to_zero(rt: HostRuntime) -> Result<(), Fail> {
    let points = [
        Point::new(&[-1, -1]).expect(&rt, "two entries"),
        Point::new(&[2, -1]).expect(&rt, "two entries"),
        Point::new(&[-1, 2]).expect(&rt, "two entries"),
    ];
    let Kind::Reflexive(pair) = DualPair::of(rt.alloc(), Polytope::of(rt.alloc(), &points)?)? else {
        return Err(Fail::new("reflexive"));
    };
    let cone = first_cone(rt.alloc(), &pair)?;
    assert!(rt; cone.dim() == 2 && cone.parts() == 2);
    assert_eq!(rt; cone.rays(), 6);
    assert_eq!(rt; cone.functions(), 5);
    let pool = rows_of(rt.alloc(), &cone)?;
    let rows = [28, 21, 26, 13, 19, 11, 58, 52, 11, 45, 23];
    assert_eq!(rt; pool.used(), rows.len());
    for (place, word) in (0..).zip(rows) {
        assert_eq!(rt; pool.row(RowId { epoch: 1, place }), Ok([word].as_slice()));
    }
    Ok(())
}
