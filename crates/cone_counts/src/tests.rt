//! The counts of a triangle's cone.
ghost use Rattle.std.specs.Prelude.{◌≡◌, IfOk};
ghost use Rattle.face_theory.specs.Pairings.{paired};
ghost use Rattle.face_poset.specs.Faces.{IsTableOf};
ghost use Rattle.cone_counts.specs.FaceCounts.{IsNefCone};

use crate::{FaceCounts, SideRooms};
use bit_pool::RowPool;
use cayley::{Cone, found_are_partitions, scan_limits};
use dual_pair::{DualPair, Kind, Polytope, Side};
use face_poset::FaceTable;
use lattice_core::Point;
use nef_parts::{Masks, NefSearch};
use std::alloc::Global;
use std::test::Fail;

/// The cone of a pair's first nef partition into one part.
fn first_cone(alloc: Global, pair: &DualPair) -> Result<Cone, Fail>
    ensures { IfOk result (IsNefCone pair.now) }
{
    let masks = Masks::of(alloc, pair)?;
    let mut search = NefSearch::new(alloc, masks, 1)?;
    let Some(partition) = search.next()? else {
        return Err(Fail::new("a partition"));
    };
    found_are_partitions();
    Ok(Cone::of(alloc, pair, &partition)?)
}

/// The faces of a cone of at most 64 rays and functions.
fn faces_of(alloc: Global, cone: &Cone) -> Result<FaceTable, Fail>
    ensures { IfOk result (IsTableOf (paired cone.now.members cone.now.functions)) }
{
    if cone.rays() > 64 {
        return Err(Fail::new("few rays"));
    }
    if cone.functions() > 64 {
        return Err(Fail::new("few functions"));
    }
    let mut pool = RowPool::open(alloc, 64, 128)?;
    let mut table = FaceTable::open(alloc, 64, 64)?;
    let incidence = cone.incidence(&mut pool)?;
    match table.build(&incidence, &pool) {
        Ok(()) => Ok(table),
        Err(_) => Err(Fail::new("built")),
    }
}

/// The counts of the cone of a polygon's first nef partition into one part, where it has eight faces.
fn counts_of_polygon(alloc: Global, pair: &DualPair) -> Result<FaceCounts, Fail>
    ensures dim { IfOk result (λ counts. counts.sum_dim ≡ 3) }
    ensures faces { IfOk result (λ counts. counts.faces ≡ 8) }
{
    scan_limits(alloc, pair, 1)?;
    let cone = first_cone(alloc, pair)?;
    if cone.dim() != 2 {
        return Err(Fail::new("a polygon"));
    }
    if cone.parts() != 1 {
        return Err(Fail::new("one part"));
    }
    let table = faces_of(alloc, &cone)?;
    if table.len() != 8 {
        return Err(Fail::new("eight faces"));
    }
    let mut rooms = SideRooms::new(alloc);
    Ok(FaceCounts::of(alloc, &mut rooms, &cone, pair, &table)?)
}

#[test]
fn counts_the_vectors_of_a_triangle(rt: HostRuntime) -> Result<(), Fail> {
    let points = [
        Point::new(&[1, 0]).expect(&rt, "two entries"),
        Point::new(&[0, 1]).expect(&rt, "two entries"),
        Point::new(&[-1, -1]).expect(&rt, "two entries"),
    ];
    let Kind::Reflexive(pair) = DualPair::of(rt.alloc(), Polytope::of(rt.alloc(), &points)?)? else {
        return Err(Fail::new("reflexive"));
    };
    let counts = counts_of_polygon(rt.alloc(), &pair)?;
    assert_eq!(rt; counts.sum_dim(), 3);
    assert_eq!(rt; counts.count(Side::M, 1, 7), 4);
    assert_eq!(rt; counts.count(Side::M, 2, 7), 10);
    assert_eq!(rt; counts.count(Side::N, 2, 0), 28);
    Ok(())
}
