//! Pools of rows.
ghost use Rattle.std.specs.Prelude.{◌≡◌, ◌≤◌, IsTrue};
ghost use Rattle.bit_pool.specs.Bits.{IsRow};
ghost use Rattle.bit_pool.specs.declared.limits.TheConstants.{MOST_WIDTH};

use crate::bits::word_count;
use crate::{Full, RowFault, RowId, RowPool, Stale};
use std::process::Abort;
use std::test::Fail;

/// Whether the words are those of a set of numbers below the width.
fn is_row(width: usize, words: &[u64]) -> bool
    requires some { 1 ≤ width }
    requires most { width ≤ MOST_WIDTH }
    ensures { IsTrue result → IsRow width words.now }
{
    if words.len() != word_count(width) {
        return false;
    }
    let bits = width % 64;
    bits == 0 || words[words.len() - 1] >> bits == 0
}

/// Pushes the words of a set of numbers below the pool's width.
fn put(rt: &impl Abort, pool: &mut RowPool, words: &[u64]) -> Result<RowId, Full>
    ensures width { pool.new.width ≡ pool.old.width }
    ensures turns { pool.new.turns ≡ pool.old.turns }
{
    assert!(rt; is_row(pool.width(), words));
    pool.push(words)
}

/// The id of a row of a generation.
fn id(epoch: u64, place: u32) -> RowId {
    RowId { epoch, place }
}

/// What is told of an id that names no row, where the pool was never turned over.
fn stale(asked: RowId) -> Stale {
    Stale {
        asked,
        old_epoch: 0,
        young_epoch: 1,
    }
}

#[test]
fn opens_an_empty_pool(rt: HostRuntime) -> Result<(), Fail> {
    let pool = RowPool::open(rt.alloc(), 65, 3)?;
    assert_eq!(rt; pool.width(), 65);
    assert_eq!(rt; pool.used(), 0);
    assert_eq!(rt; pool.reserved(), 3);
    assert_eq!(rt; pool.turns(), 0);
    assert_eq!(rt; pool.row(id(1, 0)), Err(stale(id(1, 0))));
    Ok(())
}

#[test]
fn pushes_until_it_is_full(rt: HostRuntime) -> Result<(), Fail> {
    let mut pool = RowPool::open(rt.alloc(), 8, 2)?;
    assert_eq!(rt; put(&rt, &mut pool, &[0b1010_0001]), Ok(id(1, 0)));
    assert_eq!(rt; put(&rt, &mut pool, &[0b0000_0011]), Ok(id(1, 1)));
    assert_eq!(rt; put(&rt, &mut pool, &[0]), Err(Full { reserved: 2 }));
    assert_eq!(rt; pool.used(), 2);
    assert_eq!(rt; pool.row(id(1, 0)), Ok([0b1010_0001].as_slice()));
    assert_eq!(rt; pool.row(id(1, 2)), Err(stale(id(1, 2))));
    assert_eq!(rt; pool.row(id(0, 0)), Err(stale(id(0, 0))));
    Ok(())
}

#[test]
fn asks_of_rows(rt: HostRuntime) -> Result<(), Fail> {
    let mut pool = RowPool::open(rt.alloc(), 130, 4)?;
    // {0, 64, 129}, {64}, and the empty set.
    let all = put(&rt, &mut pool, &[1, 1, 2]);
    let one = put(&rt, &mut pool, &[0, 1, 0]);
    let none = put(&rt, &mut pool, &[0, 0, 0]);
    assert_eq!(rt;
        (all, one, none),
        (Ok(id(1, 0)), Ok(id(1, 1)), Ok(id(1, 2)))
    );
    assert_eq!(rt; pool.has(id(1, 0), 129), Ok(true));
    assert_eq!(rt; pool.has(id(1, 0), 128), Ok(false));
    assert_eq!(rt; pool.has(id(1, 1), 0), Ok(false));
    assert_eq!(rt; pool.count(id(1, 0)), Ok(3));
    assert_eq!(rt; pool.count(id(1, 2)), Ok(0));
    assert_eq!(rt; pool.is_subset(id(1, 1), id(1, 0)), Ok(true));
    assert_eq!(rt; pool.is_subset(id(1, 0), id(1, 1)), Ok(false));
    assert_eq!(rt; pool.is_subset(id(1, 2), id(1, 1)), Ok(true));
    assert_eq!(rt; pool.is_subset(id(2, 0), id(3, 0)), Err(stale(id(2, 0))));
    assert_eq!(rt; pool.is_subset(id(1, 0), id(3, 0)), Err(stale(id(3, 0))));
    Ok(())
}

#[test]
fn meets_rows(rt: HostRuntime) -> Result<(), Fail> {
    let mut pool = RowPool::open(rt.alloc(), 70, 3)?;
    assert_eq!(rt; put(&rt, &mut pool, &[0b0111, 0b10]), Ok(id(1, 0)));
    assert_eq!(rt; put(&rt, &mut pool, &[0b1110, 0b11]), Ok(id(1, 1)));
    assert_eq!(rt; pool.meet_into(id(1, 0), id(1, 1)), Ok(id(1, 2)));
    assert_eq!(rt; pool.row(id(1, 2)), Ok([0b0110, 0b10].as_slice()));
    assert_eq!(rt; pool.meet_into(id(1, 0), id(1, 1)), Err(RowFault::Full));
    assert_eq!(rt;
        pool.meet_into(id(7, 0), id(8, 0)),
        Err(RowFault::Stale(stale(id(7, 0))))
    );
    assert_eq!(rt; pool.used(), 3);
    Ok(())
}

#[test]
fn keeps_rows_when_room_is_added(rt: HostRuntime) -> Result<(), Fail> {
    let mut pool = RowPool::open(rt.alloc(), 8, 1)?;
    assert_eq!(rt; put(&rt, &mut pool, &[5]), Ok(id(1, 0)));
    assert!(rt; pool.reserve(2).is_ok());
    assert_eq!(rt; pool.reserved(), 2);
    assert_eq!(rt; put(&rt, &mut pool, &[6]), Ok(id(1, 1)));
    assert_eq!(rt; pool.row(id(1, 0)), Ok([5].as_slice()));
    assert!(rt; pool.reserve(1).is_ok());
    assert_eq!(rt; pool.reserved(), 2);
    Ok(())
}

#[test]
fn gives_rows_up_on_reset(rt: HostRuntime) -> Result<(), Fail> {
    let mut pool = RowPool::open(rt.alloc(), 8, 1)?;
    assert_eq!(rt; put(&rt, &mut pool, &[5]), Ok(id(1, 0)));
    pool.reset();
    assert_eq!(rt; pool.turns(), 1);
    assert_eq!(rt; pool.used(), 0);
    assert!(rt; pool.row(id(1, 0)).is_err());
    assert_eq!(rt; put(&rt, &mut pool, &[9]), Ok(id(3, 0)));
    assert_eq!(rt; pool.row(id(3, 0)), Ok([9].as_slice()));
    Ok(())
}

/// Whether the id names the row of this one word.
fn names(pool: &RowPool, id: RowId, word: u64) -> bool {
    match pool.row(id) {
        Ok(words) => words == [word].as_slice(),
        Err(_) => false,
    }
}

#[test]
fn keeps_young_rows_over_a_swap(rt: HostRuntime) -> Result<(), Fail> {
    let mut pool = RowPool::open(rt.alloc(), 8, 2)?;
    assert_eq!(rt; put(&rt, &mut pool, &[5]), Ok(id(1, 0)));
    assert_eq!(rt; pool.next_id(), id(1, 1));
    assert_eq!(rt; put(&rt, &mut pool, &[6]), Ok(id(1, 1)));
    pool.swap_generations();
    assert_eq!(rt; pool.turns(), 1);
    assert_eq!(rt; pool.used(), 0);
    assert_eq!(rt; pool.next_id(), id(2, 0));
    assert!(rt; names(&pool, id(1, 1), 6));
    assert_eq!(rt; put(&rt, &mut pool, &[7]), Ok(id(2, 0)));
    assert_eq!(rt; pool.meet_into(id(1, 1), id(2, 0)), Ok(id(2, 1)));
    assert!(rt; names(&pool, id(2, 1), 6));
    pool.swap_generations();
    assert_eq!(rt; put(&rt, &mut pool, &[9]), Ok(id(3, 0)));
    let gone = Stale {
        asked: id(1, 0),
        old_epoch: 2,
        young_epoch: 3,
    };
    assert_eq!(rt; pool.row(id(1, 0)), Err(gone));
    assert!(rt; names(&pool, id(2, 0), 7));
    Ok(())
}

#[test]
fn gives_rows_up_after_two_swaps(rt: HostRuntime) -> Result<(), Fail> {
    let mut pool = RowPool::open(rt.alloc(), 8, 2)?;
    assert_eq!(rt; put(&rt, &mut pool, &[1]), Ok(id(1, 0)));
    assert_eq!(rt; put(&rt, &mut pool, &[2]), Ok(id(1, 1)));
    assert_eq!(rt; put(&rt, &mut pool, &[3]), Err(Full { reserved: 2 }));
    pool.swap_generations();
    pool.swap_generations();
    assert_eq!(rt; put(&rt, &mut pool, &[4]), Ok(id(3, 0)));
    let gone = Stale {
        asked: id(1, 0),
        old_epoch: 2,
        young_epoch: 3,
    };
    assert_eq!(rt; pool.row(id(1, 0)), Err(gone));
    assert!(rt; names(&pool, id(3, 0), 4));
    Ok(())
}
