//! Incidences of points on a line, and of a table.

use crate::Incidence;
use bit_pool::{Full, RowId, RowPool, Stale};
use lattice_core::{Functional, Point};
use std::test::Fail;

fn id(epoch: u64, place: u32) -> RowId {
    RowId { epoch, place }
}

#[test]
fn tells_where_functions_are_zero(rt: HostRuntime) -> Result<(), Fail> {
    // x + 1, 2 - x and 0 at the points -1 and 2.
    let points = [
        Point::new(&[-1]).expect(&rt, "one entry"),
        Point::new(&[2]).expect(&rt, "one entry"),
    ];
    let functions = [
        Functional::new(&[1], 1).expect(&rt, "one entry"),
        Functional::new(&[-1], 2).expect(&rt, "one entry"),
        Functional::new(&[0], 0).expect(&rt, "one entry"),
    ];
    let mut pool = RowPool::open(rt.alloc(), 3, 5)?;
    assert!(rt; Incidence::of(&points, &functions, &mut pool).is_ok());
    for (place, word) in [(0, 5), (1, 6), (2, 1), (3, 2), (4, 3)] {
        assert_eq!(rt; pool.row(id(1, place)), Ok([word].as_slice()));
    }
    Ok(())
}

#[test]
fn tells_a_table(rt: HostRuntime) -> Result<(), Fail> {
    let tight = [true, false, true, false, true, true];
    let mut pool = RowPool::open(rt.alloc(), 3, 4)?;
    assert_eq!(rt;
        Incidence::from_table(2, 3, &tight, &mut pool),
        Err(Full { reserved: 4 })
    );
    assert_eq!(rt; pool.used(), 0);
    pool.reserve(5)?;
    let incidence = Incidence::from_table(2, 3, &tight, &mut pool).expect(
        &rt,
        "room for five rows",
    );
    assert_eq!(rt; (incidence.members(), incidence.functions()), (2, 3));
    assert!(rt; incidence.members() == 2 && incidence.functions() == 3);
    assert_eq!(rt; incidence.member_row(1), id(1, 1));
    assert_eq!(rt; incidence.function_row(2), id(1, 4));
    assert_eq!(rt; pool.row(id(1, 0)), Ok([5].as_slice()));
    assert_eq!(rt; pool.row(id(1, 4)), Ok([3].as_slice()));
    assert_eq!(rt; incidence.tight(&pool, 1, 2), Ok(true));
    assert_eq!(rt; incidence.tight(&pool, 1, 0), Ok(false));
    pool.reset();
    let gone = Stale {
        asked: id(1, 1),
        old_epoch: 2,
        young_epoch: 3,
    };
    assert_eq!(rt; incidence.tight(&pool, 1, 0), Err(gone));
    Ok(())
}
