//! The faces of a triangle, and the points inside them.
ghost use Rattle.dual_pair.specs.Faces.{AreFacesOf};

use crate::{DualPair, Kind, Polytope, Side};
use bit_pool::RowPool;
use face_poset::FaceTable;
use lattice_core::Point;
use std::alloc::Global;
use std::test::Fail;

/// How many points are inside the triangle, an edge of its dual, and the dual.
fn insides(pair: &DualPair, table: &FaceTable) -> Result<[u64; 3], Fail>
    requires { AreFacesOf pair.now.m table.now }
{
    if table.len() != 8 {
        return Err(Fail::new("eight faces"));
    }
    Ok([
        pair.interior_count(table, 7, Side::M),
        pair.interior_count(table, 1, Side::N),
        pair.interior_count(table, 0, Side::N),
    ])
}

/// The same, by the table of its faces.
fn counted(alloc: Global, pair: &DualPair) -> Result<[u64; 3], Fail> {
    if pair.m().vertices().len() > 128 {
        return Err(Fail::new("few vertices"));
    }
    if pair.m().facets().len() > 128 {
        return Err(Fail::new("few facets"));
    }
    let mut pool = RowPool::open(alloc, 128, 256)?;
    let mut table = FaceTable::open(alloc, 128, 128)?;
    match pair.faces(&mut table, &mut pool) {
        Ok(()) => insides(pair, &table),
        Err(_) => Err(Fail::new("few faces")),
    }
}

#[test]
fn counts_points_inside_faces(rt: HostRuntime) -> Result<(), Fail> {
    let points = [
        Point::new(&[1, 0]).expect(&rt, "two entries"),
        Point::new(&[0, 1]).expect(&rt, "two entries"),
        Point::new(&[-1, -1]).expect(&rt, "two entries"),
    ];
    let Kind::Reflexive(pair) = DualPair::of(rt.alloc(), Polytope::of(rt.alloc(), &points)?)? else {
        return Err(Fail::new("reflexive"));
    };
    assert_eq!(rt; counted(rt.alloc(), &pair)?, [1, 2, 1]);
    Ok(())
}
