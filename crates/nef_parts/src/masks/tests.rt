//! The masks of a small pair.

use super::*;
use dual_pair::{Kind, Polytope};
use std::test::Fail;

#[test]
fn keeps_what_stays_low_at_each_vertex(rt: HostRuntime) -> Result<(), Fail> {
    let ends = [
        Point::new(&[-1]).expect(&rt, "one entry"),
        Point::new(&[1]).expect(&rt, "one entry"),
    ];
    let segment = Polytope::of(rt.alloc(), &ends)?;
    let Kind::Reflexive(pair) = DualPair::of(rt.alloc(), segment)? else {
        return Err(Fail::new("reflexive"));
    };
    let masks = Masks::of(rt.alloc(), &pair)?;
    assert_eq!(rt; masks.table.masks.len(), 2);
    assert_eq!(rt; masks.table.masks[0].candidates.len(), 2);
    assert_eq!(rt; masks.table.masks[0].candidates[0].place, 0);
    assert_eq!(rt; masks.table.masks[0].candidates[1].place, 1);
    Ok(())
}
