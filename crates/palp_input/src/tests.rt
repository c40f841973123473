use super::*;
use crate::TextKind::{
    BadByte, BadNumber, Lengths, MatrixShort, NoWeights, NumberRange, Quotient, WeightSum,
    ZeroColumn,
};
use lattice_core::WeightSystem;
use palp_io::MemSource;
use std::alloc::Global;
use std::test::Fail;

/// More items than a text of a test has.
const MANY: usize = 20;

/// How many items a text has, and the fault that ends it, where its source fails in the call of
/// this number; 0 is the number of none.
pub fn read_all(
    alloc: Global,
    text: &[u8],
    chunk: usize,
    failing: u64,
) -> Result<(usize, Option<NextFault>), Fail> {
    let bytes = Vec::from_slice(alloc, text)?;
    let failing = vec![in alloc; failing]?;
    let mut source = MemSource::new(bytes, chunk.max(1), failing);
    let mut reader = Reader::new(alloc);
    for count in 0..MANY {
        if !reader.is_live() {
            break;
        }
        match reader.next_item(&mut source) {
            Ok(Some(_)) => {}
            Ok(None) => return Ok((count, None)),
            Err(fault) => return Ok((count, Some(fault))),
        }
    }
    Ok((MANY, None))
}

pub fn text_fault(kind: TextKind, line: u64, column: u64) -> Option<NextFault> {
    Some(NextFault::Text(TextFault { kind, line, column }))
}

/// A text, how many items it has before its fault, and the fault with its line and column.
type FaultCase = (&'static str, usize, TextKind, u64, u64);

fn first_line_faults() -> [FaultCase; 15] {
    [
        ("7", 0, NoWeights, 1, 1),
        ("x", 0, BadNumber, 1, 1),
        ("3 1 1 1 0", 0, ZeroColumn, 1, 9),
        ("2 1 1 0 0 2 0 1 1", 0, Lengths, 1, 11),
        ("3 1 1 -1 2", 0, NumberRange, 1, 7),
        ("\x1f", 0, BadByte, 1, 1),
        ("5 1 1 1 1", 0, WeightSum, 1, 1),
        ("5 1 1 1 1 1 /Z5: 0 1 2 3 4", 0, Quotient, 1, 13),
        ("/Z5", 0, BadNumber, 1, 1),
        ("2\x01 3", 0, BadByte, 1, 2),
        ("0 1 1", 0, NoWeights, 1, 1),
        ("1000000000000000000", 0, NumberRange, 1, 1),
        ("4 1 1 3", 0, WeightSum, 1, 1),
        ("2 1 1 3 1 1", 0, WeightSum, 1, 7),
        (" \t1 -1000000000000000000", 0, NumberRange, 1, 5),
    ]
}

fn later_line_faults() -> [FaultCase; 11] {
    [
        ("3 1 1 1\n2 3\n0 1 0\n", 1, MatrixShort, 2, 1),
        ("\n \t\r\n2 1\n1 +2", 0, BadNumber, 4, 3),
        ("1 1\n1000000000000000000", 0, NumberRange, 2, 1),
        ("1 1\n\x02", 0, BadByte, 2, 1),
        ("1 1\n-1000000000000000000", 0, NumberRange, 2, 1),
        ("\n\n  1 2 -", 0, MatrixShort, 3, 3),
        ("1 1\n-", 0, BadNumber, 2, 1),
        ("1 1\n--1", 0, BadNumber, 2, 1),
        ("1 1\n1.5", 0, BadNumber, 2, 1),
        ("2 1 1 2 1 1\n1 1\n7\n\t\t2 1 0 /Z", 2, Quotient, 4, 9),
        ("2 1 1\n2 1 1 x\n1 0\n 0 1\n\n  7", 4, NoWeights, 6, 3),
    ]
}

#[test]
fn names_each_fault_with_its_place(rt: HostRuntime) -> Result<(), Fail> {
    for chunk in [1, 2, 7, 4_096] {
        for (text, count, kind, line, column) in first_line_faults() {
            let read = read_all(rt.alloc(), text.as_bytes(), chunk, 0)?;
            assert_eq!(rt; read, (count, text_fault(kind, line, column)), "{text}");
        }
        for (text, count, kind, line, column) in later_line_faults() {
            let read = read_all(rt.alloc(), text.as_bytes(), chunk, 0)?;
            assert_eq!(rt; read, (count, text_fault(kind, line, column)), "{text}");
        }
    }
    Ok(())
}

// Two faults at a time, in each order. The pairs that stand in no table can't stand in one item: a
// header has no fault of a weight line, and behind a first token that isn't a number all is ignored.

fn pairs_with_bytes() -> [FaultCase; 16] {
    [
        ("1 2\n\x01 x", 0, BadByte, 2, 1),
        ("1 2\nx \x01", 0, BadNumber, 2, 1),
        ("x\x01", 0, BadNumber, 1, 1),
        ("\x01x", 0, BadByte, 1, 1),
        ("3 1 /Z\x01", 0, Quotient, 1, 5),
        ("3 1 \x01/Z", 0, BadByte, 1, 5),
        ("-1\x01", 0, NumberRange, 1, 1),
        ("3 \x01 -1", 0, BadByte, 1, 3),
        ("1 2\n1000000000000000000 \x01", 0, NumberRange, 2, 1),
        ("1 2\n\x01 1000000000000000000", 0, BadByte, 2, 1),
        ("2 2\n1 2 3 \x7f", 0, BadByte, 2, 7),
        ("7 \u{80}", 0, BadByte, 1, 3),
        ("0 1 1 \x01", 0, BadByte, 1, 7),
        ("5 1 1 1 1 \x01", 0, BadByte, 1, 11),
        ("2 1 1 0 0 2 0 1 1 \x01", 0, BadByte, 1, 19),
        ("3 1 1 1 0 \x01", 0, BadByte, 1, 11),
    ]
}

fn pairs_with_numbers() -> [FaultCase; 12] {
    [
        ("1 2\nx 1000000000000000000", 0, BadNumber, 2, 1),
        ("1 2\n1000000000000000000 x", 0, NumberRange, 2, 1),
        ("1 2 /Z\nx", 0, Quotient, 1, 5),
        ("2 2\n1 2 3 x", 0, BadNumber, 2, 7),
        ("3 -1 /Z", 0, NumberRange, 1, 3),
        ("1 2 /Z\n1000000000000000000", 0, Quotient, 1, 5),
        ("2 2\n1 2\n1000000000000000000", 0, NumberRange, 3, 1),
        ("-1", 0, NumberRange, 1, 1),
        ("0 1 -2", 0, NumberRange, 1, 5),
        ("5 1 1000000000000000000", 0, NumberRange, 1, 5),
        ("2 1 1 0 0 2 0 1 1 -1", 0, NumberRange, 1, 19),
        ("3 1 1 1 0 -1", 0, NumberRange, 1, 11),
    ]
}

fn pairs_with_systems() -> [FaultCase; 16] {
    [
        ("1 2 /Z\n5", 0, Quotient, 1, 5),
        ("7 /Z", 0, Quotient, 1, 3),
        ("0 1 1 /Z", 0, Quotient, 1, 7),
        ("5 1 1 1 1 /Z", 0, Quotient, 1, 11),
        ("2 1 1 0 0 2 0 1 1 /Z", 0, Quotient, 1, 19),
        ("3 1 1 1 0 /Z", 0, Quotient, 1, 11),
        ("0 1 2", 0, NoWeights, 1, 1),
        ("0 0 2 1 1", 0, NoWeights, 1, 1),
        ("0 0 0", 0, NoWeights, 1, 1),
        ("2 1 1 3 1 1 1 3 1 1", 0, WeightSum, 1, 15),
        ("2 1 1 3 3 2 1", 0, WeightSum, 1, 11),
        ("2 1 1 0 3 1 1 0", 0, WeightSum, 1, 9),
        ("2 1 1 0 2 1 1 0 0", 0, Lengths, 1, 9),
        ("2 1 0 1 0 2 1 0 1 0", 0, ZeroColumn, 1, 5),
        ("3 1 1 1\n\n7\nx", 1, NoWeights, 3, 1),
        ("3 1 1 1\n\nx\n7", 1, BadNumber, 3, 1),
    ]
}

#[test]
fn names_the_first_of_two_faults(rt: HostRuntime) -> Result<(), Fail> {
    for (text, count, kind, line, column) in pairs_with_bytes() {
        let read = read_all(rt.alloc(), text.as_bytes(), 5, 0)?;
        assert_eq!(rt; read, (count, text_fault(kind, line, column)), "{text}");
    }
    for (text, count, kind, line, column) in pairs_with_numbers() {
        let read = read_all(rt.alloc(), text.as_bytes(), 5, 0)?;
        assert_eq!(rt; read, (count, text_fault(kind, line, column)), "{text}");
    }
    for (text, count, kind, line, column) in pairs_with_systems() {
        let read = read_all(rt.alloc(), text.as_bytes(), 5, 0)?;
        assert_eq!(rt; read, (count, text_fault(kind, line, column)), "{text}");
    }
    Ok(())
}

#[test]
fn ends_without_a_fault(rt: HostRuntime) -> Result<(), Fail> {
    let cases = [
        ("", 0),
        (" \n\r\n\t", 0),
        ("3 1 1 1", 1),
        ("2 1 1 0 0 2 0 0 1 1", 1),
        (
            "2 6\n1 1 0 -1 -1 0\n0 1 1 0 -1 -1\n6 2\n1 0\n1 1\n0 1\n-1 0\n-1 -1\n0 -1\n",
            2,
        ),
        ("5 1 1 1 1 1 M:126 \x01/Z\n", 1),
        ("0 5\n\n2 1 1\n", 2),
        ("5 0\n2 1 1\n", 2),
        ("-0 -00 x\n", 1),
        ("1 1 x\n 00000000000000000001 -/Z", 1),
        ("1 2\n5 6 /Z\x01 \u{ff}\n", 1),
        ("1 2\n5\r\n\n\t6\x01\n2 1 1", 2),
        ("2 1 1 0 1 0 0 1", 1),
    ];
    for (text, count) in cases {
        assert_eq!(rt;
            read_all(rt.alloc(), text.as_bytes(), 3, 0)?,
            (count, None),
            "{text}"
        );
    }
    Ok(())
}

#[test]
fn gives_weights_and_matrices(rt: HostRuntime) -> Result<(), Fail> {
    let alloc = rt.alloc();
    let text = "2 1 1 0 0 02 -0 0 1 1 x\n\n 2 3 /z\n-1 0\n 12 7 8 -0 /Z\n1 0";
    let bytes = Vec::from_slice(alloc, text.as_bytes())?;
    let mut source = MemSource::new(bytes, 5, Vec::new(alloc));
    let mut reader = Reader::new(alloc);
    let first = WeightSystem {
        degree: 2,
        weights: vec![in alloc; 1, 1, 0, 0]?,
    };
    let second = WeightSystem {
        degree: 2,
        weights: vec![in alloc; 0, 0, 1, 1]?,
    };
    let weights = Item::Weights(vec![in alloc; first, second]?);
    assert_eq!(rt; reader.next_item(&mut source), Ok(Some(weights)));
    let matrix = Item::Points(Matrix {
        lines: 2,
        columns: 3,
        entries: vec![in alloc; -1, 0, 12, 7, 8, 0]?,
    });
    assert!(rt; reader.is_live());
    assert_eq!(rt; reader.next_item(&mut source), Ok(Some(matrix)));
    let empty = Item::Points(Matrix {
        lines: 1,
        columns: 0,
        entries: Vec::new(alloc),
    });
    assert!(rt; reader.is_live());
    assert_eq!(rt; reader.next_item(&mut source), Ok(Some(empty)));
    assert!(rt; reader.is_live());
    assert_eq!(rt; reader.next_item(&mut source), Ok(None));
    assert!(rt; !reader.is_live());
    Ok(())
}

/// A text of three items.
const THREE_ITEMS: &[u8] = b"3 1 1 1\n1 2\n4 5\n2 1 1";

#[test]
fn reads_each_beginning_of_three_items(rt: HostRuntime) -> Result<(), Fail> {
    // How many items the first 0, 1, .. bytes have, and the fault behind them.
    let cases = [
        (0, None),
        (0, text_fault(TextKind::NoWeights, 1, 1)),
        (0, text_fault(TextKind::NoWeights, 1, 1)),
        (0, text_fault(TextKind::MatrixShort, 1, 1)),
        (0, text_fault(TextKind::MatrixShort, 1, 1)),
        (0, text_fault(TextKind::WeightSum, 1, 1)),
        (0, text_fault(TextKind::WeightSum, 1, 1)),
        (1, None),
        (1, None),
        (1, text_fault(TextKind::NoWeights, 2, 1)),
        (1, text_fault(TextKind::NoWeights, 2, 1)),
        (1, text_fault(TextKind::MatrixShort, 2, 1)),
        (1, text_fault(TextKind::MatrixShort, 2, 1)),
        (1, text_fault(TextKind::MatrixShort, 2, 1)),
        (1, text_fault(TextKind::MatrixShort, 2, 1)),
        (2, None),
        (2, None),
        (2, text_fault(TextKind::NoWeights, 4, 1)),
        (2, text_fault(TextKind::NoWeights, 4, 1)),
        (2, text_fault(TextKind::MatrixShort, 4, 1)),
        (2, text_fault(TextKind::MatrixShort, 4, 1)),
        (3, None),
    ];
    for (cut, expected) in cases.iter().enumerate() {
        assert!(rt; cut <= THREE_ITEMS.len());
        for chunk in [1, 2, 7, 4_096] {
            let read = read_all(rt.alloc(), &THREE_ITEMS[..cut], chunk, 0)?;
            assert_eq!(rt; read, *expected, "{cut} bytes");
        }
    }
    Ok(())
}

/// The bytes of a take, the first and the last of some calls, and how many items have their line end in
/// the bytes of the takes before each of them.
const FAILING_CALLS: [(usize, u64, u64, usize); 11] = [
    (1, 1, 8, 0),
    (1, 9, 16, 1),
    (1, 17, 22, 2),
    (2, 1, 4, 0),
    (2, 5, 8, 1),
    (2, 9, 12, 2),
    (7, 1, 2, 0),
    (7, 3, 3, 1),
    (7, 4, 4, 2),
    (4_096, 1, 1, 0),
    (4_096, 2, 2, 2),
];

#[test]
fn tells_a_failing_source(rt: HostRuntime) -> Result<(), Fail> {
    for (chunk, first, last, count) in FAILING_CALLS {
        for call in first..=last {
            let read = read_all(rt.alloc(), THREE_ITEMS, chunk, call)?;
            assert_eq!(rt; read, (count, Some(NextFault::Read)), "call {call}");
        }
        assert_eq!(rt; read_all(rt.alloc(), b"3 1 1 1\n", chunk, 11)?, (1, None));
    }
    Ok(())
}

#[test]
fn tells_a_fault_before_it_takes_on(rt: HostRuntime) -> Result<(), Fail> {
    let cases = [
        ("x 1\n3 1 1 1\n", 4, 2, text_fault(BadNumber, 1, 1)),
        ("7\n3 1 1 1\n", 3, 2, text_fault(NoWeights, 1, 1)),
        ("7\n3 1 1 1\n", 2, 2, Some(NextFault::Read)),
        ("1 2\n4 x\n", 8, 2, text_fault(BadNumber, 2, 3)),
        ("1 3\n4\n5\nx y\n", 4, 4, text_fault(BadNumber, 4, 1)),
        ("1 3\n4\n5\nx y\n", 4, 3, Some(NextFault::Read)),
    ];
    for (text, chunk, failing, fault) in cases {
        let read = read_all(rt.alloc(), text.as_bytes(), chunk, failing)?;
        assert_eq!(rt; read, (0, fault), "{text}");
    }
    Ok(())
}

#[test]
fn reads_a_matrix_across_takes(rt: HostRuntime) -> Result<(), Fail> {
    let alloc = rt.alloc();
    let text = "3 2\n10 -20\n\n 7\n 100 5 6 7\n2 1 1";
    for chunk in [1, 2, 3, 7, 4_096] {
        let bytes = Vec::from_slice(alloc, text.as_bytes())?;
        let mut source = MemSource::new(bytes, chunk, Vec::new(alloc));
        let mut reader = Reader::new(alloc);
        let matrix = Item::Points(Matrix {
            lines: 3,
            columns: 2,
            entries: vec![in alloc; 10, -20, 7, 100, 5, 6]?,
        });
        assert_eq!(rt; reader.next_item(&mut source), Ok(Some(matrix)));
        let system = WeightSystem {
            degree: 2,
            weights: vec![in alloc; 1, 1]?,
        };
        let weights = Item::Weights(vec![in alloc; system]?);
        assert!(rt; reader.is_live());
        assert_eq!(rt; reader.next_item(&mut source), Ok(Some(weights)));
        assert!(rt; reader.is_live());
        assert_eq!(rt; reader.next_item(&mut source), Ok(None));
    }
    Ok(())
}

#[test]
fn takes_nothing_behind_the_end(rt: HostRuntime) -> Result<(), Fail> {
    // The take behind the one that answers the end would have this number, and fail.
    for (chunk, call) in [(1, 23), (2, 13), (7, 5), (4_096, 3)] {
        let read = read_all(rt.alloc(), THREE_ITEMS, chunk, call)?;
        assert_eq!(rt; read, (3, None), "{chunk} bytes a take");
    }
    assert_eq!(rt;
        read_all(rt.alloc(), b"3 1 1 1\n2 1 1\n", 4_096, 3)?,
        (2, None)
    );
    assert_eq!(rt; read_all(rt.alloc(), b"", 4_096, 2)?, (0, None));
    Ok(())
}

#[test]
fn counts_lines_on_behind_each_item(rt: HostRuntime) -> Result<(), Fail> {
    let text = b"3 1 1 1\n0 0\n\n1 2\n4 5\n2 1 1\n\n 7\n";
    for chunk in [1, 4, 4_096] {
        let read = read_all(rt.alloc(), text, chunk, 0)?;
        assert_eq!(rt; read, (4, text_fault(NoWeights, 8, 2)));
    }
    Ok(())
}

#[test]
fn is_not_live_after_a_fault(rt: HostRuntime) -> Result<(), Fail> {
    let mut source = MemSource::new(Vec::new(rt.alloc()), 4, vec![in rt.alloc(); 1]?);
    let mut reader = Reader::new(rt.alloc());
    assert_eq!(rt; reader.next_item(&mut source), Err(NextFault::Read));
    assert!(rt; !reader.is_live());
    let mut source = MemSource::new(Vec::from_slice(rt.alloc(), b"7")?, 4, Vec::new(rt.alloc()));
    let mut reader = Reader::new(rt.alloc());
    assert_eq!(rt;
        reader.next_item(&mut source),
        Err(NextFault::Text(TextFault {
            kind: TextKind::NoWeights,
            line: 1,
            column: 1
        }))
    );
    assert!(rt; !reader.is_live());
    Ok(())
}
