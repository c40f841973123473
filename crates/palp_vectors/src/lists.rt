//! Lists and sums of weight systems.

use crate::runs::{are_answered, asked};
use std::test::Fail;

const NO_ITEM: &str = "not a text\n";

#[test]
fn systems_are_listed_in_order(rt: HostRuntime) -> Result<(), Fail> {
    let cases = [
        asked(
            &["cws", "-w2", "3", "6"],
            NO_ITEM,
            "3 1 1 1\n4 1 1 2\n6 1 2 3\n#ip:3\n",
        ),
        asked(&["cws", "-w2", "7", "20"], NO_ITEM, "#ip:0\n"),
        asked(&["cws", "-w1", "1", "10"], NO_ITEM, "2 1 1\n#ip:1\n"),
        asked(
            &["cws", "-w4", "5", "6"],
            NO_ITEM,
            "5 1 1 1 1 1\n6 1 1 1 1 2\n#ip:2\n",
        ),
        asked(
            &["cws", "-r", "-w2", "3", "6"],
            NO_ITEM,
            "3 1 1 1\n4 1 1 2\n6 1 2 3\n#ref:3\n",
        ),
        asked(&["cws", "-w1", "1", "2", "-r"], NO_ITEM, "2 1 1\n#ref:1\n"),
        asked(
            &["cws", "-w5", "6", "7"],
            NO_ITEM,
            "6 1 1 1 1 1 1\n7 1 1 1 1 1 2\n#ip:2\n",
        ),
        asked(
            &["cws", "-r", "-w5", "6", "7"],
            NO_ITEM,
            "6 1 1 1 1 1 1\n#ref:1\n",
        ),
        asked(&["cws", "-w2", "7", "1000"], NO_ITEM, "#ip:0\n"),
    ];
    assert!(rt; are_answered(&rt, &cases)?);
    Ok(())
}

#[test]
fn systems_are_summed_up(rt: HostRuntime) -> Result<(), Fail> {
    let cases = [
        asked(
            &["sweep", "2", "3", "6"],
            NO_ITEM,
            "systems:3 reflexive:3 M:26 N:16\n",
        ),
        asked(
            &["sweep", "1", "1", "10"],
            NO_ITEM,
            "systems:1 reflexive:1 M:3 N:3\n",
        ),
        asked(
            &["sweep", "2", "7", "9"],
            NO_ITEM,
            "systems:0 reflexive:0 M:0 N:0\n",
        ),
        asked(
            &["sweep", "3", "4", "66"],
            NO_ITEM,
            "systems:95 reflexive:95 M:1680 N:1938\n",
        ),
    ];
    assert!(rt; are_answered(&rt, &cases)?);
    Ok(())
}
