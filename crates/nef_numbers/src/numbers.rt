//! The stringy numbers of nef partitions.
ghost use Rattle.std.specs.Prelude.{MatchResult};
ghost use Rattle.lattice_core.specs.Stops.{Stops};
ghost use Rattle.cayley.specs.Limits.{IsWithinScans};
ghost use Rattle.nef_numbers.specs.Numbers.{IsPartitionInto, HasNumbers, IsNumbersRefusal};

use crate::ConeRooms;
use cayley::Cone;
use dual_pair::{DualPair, Partition};
use lattice_core::Fault;
use std::alloc::Global;
use stringy::EPoly;

/// The stringy numbers of a nef partition of a pair into `codim` parts. It is refused exactly where a limit is exceeded, by the first one: more than
/// 4,096 faces of its cone (4,097 is told); more than 2,097,152 integer vectors of a degree below the cone's dimension in the cone, and then in its
/// dual (2,097,153 is told); a coefficient of G or G' of an interval of faces above 4,096 in size (the absolute value of the first one is told).
/// `NoMemory` comes where there is no memory to count or to keep coefficients. After every answer the room serves again. Source: alg-geom/9509009; the
/// limits are this project's own.
pub fn numbers_of(
    alloc: Global,
    rooms: &mut ConeRooms,
    pair: &DualPair,
    partition: &Partition,
    codim: u32,
) -> Result<EPoly, Fault>
    requires partition { IsPartitionInto pair.now codim partition.now.part_of.items partition.now.points.items }
    requires within { IsWithinScans pair.now codim }
    ensures { MatchResult result (HasNumbers pair.now codim partition.now.part_of.items) (Stops (IsNumbersRefusal pair.now codim partition.now.part_of.items)) }
{
    let _polytope = pair.m();
    let cone = Cone::of(alloc, pair, partition)?;
    rooms.numbers(alloc, &cone, pair, codim)
}
