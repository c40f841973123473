//! The numbers of a curve.
ghost use Rattle.std.specs.Prelude.{IfOk};
ghost use Rattle.nef_numbers.specs.Numbers.{IsPartitionInto};

use crate::{ConeRooms, numbers_of};
use cayley::scan_limits;
use dual_pair::{DualPair, Kind, Partition, Polytope};
use lattice_core::Point;
use nef_parts::{Masks, NefSearch};
use std::alloc::Global;
use std::test::Fail;
use stringy::EPoly;

/// The first nef partition into one part.
fn first_partition(alloc: Global, pair: &DualPair) -> Result<Partition, Fail>
    ensures { IfOk result (λ p. IsPartitionInto pair.now 1 p.part_of.items p.points.items) }
{
    let mut search = NefSearch::new(alloc, Masks::of(alloc, pair)?, 1)?;
    match search.next()? {
        Some(partition) => Ok(partition),
        None => Err(Fail::new("a partition")),
    }
}

/// Its numbers.
fn first_numbers(alloc: Global, pair: &DualPair) -> Result<EPoly, Fail> {
    scan_limits(alloc, pair, 1)?;
    let partition = first_partition(alloc, pair)?;
    let mut rooms = ConeRooms::open(alloc)?;
    let numbers = numbers_of(alloc, &mut rooms, pair, &partition, 1)?;
    Ok(numbers)
}

#[test]
fn numbers_of_a_curve(rt: HostRuntime) -> Result<(), Fail> {
    let points = [
        Point::new(&[1, 0]).expect(&rt, "two entries"),
        Point::new(&[0, 1]).expect(&rt, "two entries"),
        Point::new(&[-1, -1]).expect(&rt, "two entries"),
    ];
    let Kind::Reflexive(pair) = DualPair::of(rt.alloc(), Polytope::of(rt.alloc(), &points)?)? else {
        return Err(Fail::new("reflexive"));
    };
    let numbers = first_numbers(rt.alloc(), &pair)?;
    assert!(rt; numbers.dim() == 1 && numbers.euler() == 0);
    assert!(rt; numbers.first_numbers().as_slice() == [1].as_slice());
    Ok(())
}
