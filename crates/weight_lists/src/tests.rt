//! Lists and sums of small ranges.
ghost use Rattle.std.specs.Prelude.{◌≡◌};

use crate::{ListFault, list_systems, sum_up};
use palp_io::MemSink;
use palp_words::{CwsWords, SweepWords};
use std::test::Fail;

/// The systems with three weights up to the degree 6.
fn small(reflexive_only: bool) -> CwsWords
    ensures { result ≡ record { dim = 2; low = 3; high = 6; reflexive_only = reflexive_only } }
{
    CwsWords {
        dim: 2,
        low: 3,
        high: 6,
        reflexive_only,
    }
}

#[test]
fn lists_the_systems_of_a_range(rt: HostRuntime) -> Result<(), Fail> {
    let alloc = rt.alloc();
    let mut out = MemSink::new(alloc, 100, vec![in alloc;]?)?;
    list_systems(alloc, &small(false), &mut out).expect(&rt, "a list");
    assert_eq!(rt;
        out.given(),
        b"3 1 1 1\n4 1 1 2\n6 1 2 3\n#ip:3\n".as_slice()
    );
    Ok(())
}

#[test]
fn lists_the_reflexive_systems_of_a_range(rt: HostRuntime) -> Result<(), Fail> {
    let alloc = rt.alloc();
    let mut out = MemSink::new(alloc, 100, vec![in alloc;]?)?;
    list_systems(alloc, &small(true), &mut out).expect(&rt, "a list");
    assert_eq!(rt;
        out.given(),
        b"3 1 1 1\n4 1 1 2\n6 1 2 3\n#ref:3\n".as_slice()
    );
    Ok(())
}

#[test]
fn sums_up_the_systems_of_a_range(rt: HostRuntime) -> Result<(), Fail> {
    let alloc = rt.alloc();
    let words = SweepWords {
        dim: 2,
        low: 3,
        high: 6,
    };
    let mut out = MemSink::new(alloc, 100, vec![in alloc;]?)?;
    sum_up(alloc, &words, &mut out).expect(&rt, "a sum");
    assert_eq!(rt;
        out.given(),
        b"systems:3 reflexive:3 M:26 N:16\n".as_slice()
    );
    Ok(())
}

#[test]
fn ends_where_the_sink_fails(rt: HostRuntime) -> Result<(), Fail> {
    let alloc = rt.alloc();
    let mut out = MemSink::new(alloc, 12, vec![in alloc;]?)?;
    let fault = list_systems(alloc, &small(false), &mut out);
    assert!(rt; fault == Err(ListFault::Write));
    assert_eq!(rt; out.given(), b"3 1 1 1\n".as_slice());
    Ok(())
}
