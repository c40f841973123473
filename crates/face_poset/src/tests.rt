//! Tables of the faces of small relations.
ghost use Rattle.std.specs.Prelude.{◌≡◌, ◌*◌, ◌≤◌, length, IfOk};

use crate::{BuildFault, FaceTable};
use bit_pool::RowPool;
use incidence::Incidence;
use std::alloc::Global;
use std::test::Fail;

/// The table of so many members and functions of a relation that this one tells.
fn built(
    alloc: Global,
    members: u32,
    functions: u32,
    tight: &[bool],
) -> Result<(FaceTable, Result<(), BuildFault>), Fail>
    requires some_members { 1 ≤ members }
    requires most_members { members ≤ 64 }
    requires some_functions { 1 ≤ functions }
    requires most_functions { functions ≤ 64 }
    requires entries { length tight.now ≡ members * functions }
{
    let mut pool = RowPool::open(alloc, 64, 128)?;
    let mut table = FaceTable::open(alloc, members, functions)?;
    let incidence = Incidence::from_table(members, functions, tight, &mut pool)?;
    let outcome = table.build(&incidence, &pool);
    Ok((table, outcome))
}

/// Whether numbers differ, for each pair of numbers below a bound.
fn unequal(alloc: Global, count: u32) -> Result<Vec<bool>, Fail>
    requires some { 1 ≤ count }
    requires most { count ≤ 64 }
    ensures { IfOk result (λ v. length v.items ≡ count * count) }
{
    let mut tight = Vec::new(alloc);
    for place in 0..count * count {
        tight.push(place / count != place % count)?;
    }
    Ok(tight)
}

/// How many faces so many members and as many functions have, tight unless their numbers are equal; or the fault.
fn counted(alloc: Global, count: u32) -> Result<Result<u32, BuildFault>, Fail>
    requires some { 1 ≤ count }
    requires most { count ≤ 64 }
{
    let tight = unequal(alloc, count)?;
    let (table, outcome) = built(alloc, count, count, &tight)?;
    match outcome {
        Ok(()) => Ok(Ok(table.len())),
        Err(fault) => Ok(Err(fault)),
    }
}

#[test]
fn lists_the_faces_of_the_square(rt: HostRuntime) -> Result<(), Fail> {
    // Corner m lies on the sides m and m - 1.
    let (yes, no) = (true, false);
    let sides = [
        yes, no, no, yes, yes, yes, no, no, no, yes, yes, no, no, no, yes, yes,
    ];
    let (table, outcome) = built(rt.alloc(), 4, 4, &sides)?;
    assert_eq!(rt; outcome, Ok(()));
    assert_eq!(rt; table.len(), 10);
    assert_eq!(rt; table.counts(1), 4);
    assert_eq!(rt; table.counts(2), 4);
    assert_eq!(rt; table.find(&[0b0011]), Some(5));
    assert_eq!(rt; table.find(&[0b1001]), Some(6));
    assert_eq!(rt; table.find(&[0b0101]), None);
    assert_eq!(rt; table.find_functions(&[0b1001]), Some(1));
    Ok(())
}

#[test]
fn ranks_the_faces_of_the_triangle(rt: HostRuntime) -> Result<(), Fail> {
    let (table, outcome) = built(rt.alloc(), 3, 3, &unequal(rt.alloc(), 3)?)?;
    assert_eq!(rt; outcome, Ok(()));
    assert!(rt; table.len() == 8);
    assert_eq!(rt; table.rank(0), 0);
    assert_eq!(rt; table.rank(4), 2);
    assert_eq!(rt; table.top_rank(), 3);
    assert_eq!(rt; table.members_of(1), [0b001].as_slice());
    assert_eq!(rt; table.functions_of(1), [0b110].as_slice());
    assert!(rt; table.below(1, 4));
    assert!(rt; !table.below(3, 4));
    Ok(())
}

#[test]
fn lists_the_faces_of_the_octahedron(rt: HostRuntime) -> Result<(), Fail> {
    // The corners -x, -y, -z, x, y and z, and the octants by the signs of x, y and z.
    let (yes, no) = (true, false);
    let octants = [
        no, no, no, no, yes, yes, yes, yes, no, no, yes, yes, no, no, yes, yes, no, yes, no, yes,
        no, yes, no, yes, yes, yes, yes, yes, no, no, no, no, yes, yes, no, no, yes, yes, no, no,
        yes, no, yes, no, yes, no, yes, no,
    ];
    let (table, outcome) = built(rt.alloc(), 6, 8, &octants)?;
    assert_eq!(rt; outcome, Ok(()));
    assert_eq!(rt; table.len(), 28);
    assert_eq!(rt; table.counts(1), 6);
    assert_eq!(rt; table.counts(2), 12);
    assert_eq!(rt; table.counts(3), 8);
    assert_eq!(rt; table.find(&[0b00_0111]), Some(19));
    assert_eq!(rt; table.find_functions(&[0b1000_0000]), Some(19));
    assert_eq!(rt; table.find(&[0b00_1001]), None);
    Ok(())
}

#[test]
fn meets_the_limit(rt: HostRuntime) -> Result<(), Fail> {
    assert_eq!(rt; counted(rt.alloc(), 11)?, Ok(2_048));
    assert_eq!(rt; counted(rt.alloc(), 12)?, Ok(4_096));
    assert_eq!(rt; counted(rt.alloc(), 13)?, Err(BuildFault::FaceLimit(4_097)));
    Ok(())
}
