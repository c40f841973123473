//! Tables of rows, and the faces of the square and of a segment.
ghost use Rattle.std.specs.Prelude.{◌≡◌, vec_capacity, IfOk};

use crate::{RowTable, close, compare, meet_into, rank_into, sort_into};
use bit_pool::Generation;
use std::alloc::Global;
use std::cmp::Ordering;
use std::test::Fail;

#[test]
fn meets_words(rt: HostRuntime) -> Result<(), Fail> {
    let mut meet = [0, 0];
    meet_into(&mut meet, &[0b0110, 1], &[0b0011, 3]);
    assert_eq!(rt; meet, [0b0010, 1]);
    Ok(())
}

#[test]
fn compares_by_the_first_number(rt: HostRuntime) -> Result<(), Fail> {
    // {0, 2} and {1, 2}; {65} and {66}; and a set with itself.
    assert_eq!(rt; compare(&[0b101], &[0b110]), Ordering::Less);
    assert_eq!(rt; compare(&[0b110], &[0b101]), Ordering::Greater);
    assert_eq!(rt; compare(&[0, 4], &[0, 2]), Ordering::Greater);
    assert_eq!(rt; compare(&[7, 8], &[7, 8]), Ordering::Equal);
    Ok(())
}

#[test]
fn finds_rows_by_their_words(rt: HostRuntime) -> Result<(), Fail> {
    let mut table = RowTable::open(rt.alloc(), 2)?;
    assert_eq!(rt; table.find(&[1, 2]), None);
    table.push(&[1, 2]);
    table.push(&[3, 4]);
    assert!(rt; table.add(&[1, 2]));
    assert!(rt; table.add(&[2, 1]));
    assert_eq!(rt; table.len(), 3);
    assert_eq!(rt; table.find(&[3, 4]), Some(1));
    assert_eq!(rt; table.find(&[2, 1]), Some(2));
    assert_eq!(rt; table.find(&[4, 3]), None);
    assert_eq!(rt; table.find(&[3]), None);
    assert_eq!(rt; table.row(0), [1, 2].as_slice());
    table.clear();
    assert_eq!(rt; table.len(), 0);
    assert_eq!(rt; table.find(&[3, 4]), None);
    Ok(())
}

#[test]
fn closes_the_sides_of_the_square(rt: HostRuntime) -> Result<(), Fail> {
    let mut sides = Generation::open(rt.alloc(), 0, 1, 4)?;
    sides.push(&[0b0011]);
    sides.push(&[0b0110]);
    sides.push(&[0b1100]);
    sides.push(&[0b1001]);
    let mut table = RowTable::open(rt.alloc(), 1)?;
    table.push(&[0b1111]);
    assert!(rt; close(&mut table, &sides, &mut [0]));
    assert_eq!(rt; table.len(), 10);
    assert!(rt; table.find(&[0]).is_some());
    assert!(rt; table.find(&[0b0100]).is_some());
    assert_eq!(rt; table.find(&[0b0101]), None);
    Ok(())
}

/// An empty list with room for 4,096 numbers.
fn list(alloc: Global) -> Result<Vec<u16>, Fail>
    ensures { IfOk result (λ v. vec_capacity v ≡ 4096) }
{
    Ok(Vec::with_capacity(alloc, 4_096)?)
}

#[test]
fn sorts_and_ranks_the_faces_of_a_segment(rt: HostRuntime) -> Result<(), Fail> {
    let mut ends = Generation::open(rt.alloc(), 0, 1, 2)?;
    ends.push(&[0b01]);
    ends.push(&[0b10]);
    let mut table = RowTable::open(rt.alloc(), 1)?;
    table.push(&[0b11]);
    assert!(rt; close(&mut table, &ends, &mut [0]));
    let mut sorted = RowTable::open(rt.alloc(), 1)?;
    sort_into(&mut sorted, &table, &mut list(rt.alloc())?);
    let mut ranks = list(rt.alloc())?;
    rank_into(&mut ranks, &sorted, &ends, &mut [0]);
    assert_eq!(rt; sorted.find(&[0b01]), Some(1));
    assert_eq!(rt; ranks.as_slice(), [2, 1, 1, 0].as_slice());
    Ok(())
}
