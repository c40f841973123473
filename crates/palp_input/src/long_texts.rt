use crate::TextKind::{BadByte, BadNumber, MatrixShort, NoWeights, NumberRange, Quotient};
use crate::fault::{NextFault, TextKind};
use crate::tests::{read_all, text_fault};
use std::alloc::Global;
use std::test::Fail;

/// The front, then a byte so many times, then the back.
fn filled(
    alloc: Global,
    front: &[u8],
    byte: u8,
    count: usize,
    back: &[u8],
) -> Result<Vec<u8>, Fail> {
    let mut bytes = Vec::from_slice(alloc, front)?;
    for _ in 0..count {
        bytes.push(byte)?;
    }
    bytes.extend_from_slice(back)?;
    Ok(bytes)
}

// Were all bytes held looked at again in each take, these would take hours.
#[test]
fn looks_at_each_byte_a_few_times(rt: HostRuntime) -> Result<(), Fail> {
    let alloc = rt.alloc();
    let lines = filled(alloc, b"", b'\n', 1_000_000, b"3 1 1 1\n")?;
    assert_eq!(rt; read_all(alloc, &lines, 1, 0)?, (1, None));
    let ignored = filled(alloc, b"2 1 1 x", b'y', 1_000_000, b"\n2 1 1")?;
    assert_eq!(rt; read_all(alloc, &ignored, 1, 0)?, (2, None));
    let apart = filled(alloc, b"1 2\n5\n", b'\n', 1_000_000, b"6\n")?;
    assert_eq!(rt; read_all(alloc, &apart, 1, 0)?, (1, None));
    let mut entries = Vec::from_slice(alloc, b"500000 1\n")?;
    for _ in 0..500_000 {
        entries.extend_from_slice(b"0\n")?;
    }
    assert_eq!(rt; read_all(alloc, &entries, 1, 0)?, (1, None));
    Ok(())
}

// Each take ends behind the sign of an entry.
#[test]
fn reads_a_matrix_on_behind_a_sign(rt: HostRuntime) -> Result<(), Fail> {
    let mut text = Vec::from_slice(rt.alloc(), b"300000  1 \n-")?;
    for _ in 0..299_999 {
        text.extend_from_slice(b"1\n-")?;
    }
    text.extend_from_slice(b"1\n")?;
    assert_eq!(rt; read_all(rt.alloc(), &text, 3, 0)?, (1, None));
    Ok(())
}

#[test]
fn reads_long_numbers(rt: HostRuntime) -> Result<(), Fail> {
    let alloc = rt.alloc();
    let long = filled(alloc, b"1", b'0', 9_999_999, b" 1")?;
    assert_eq!(rt;
        read_all(alloc, &long, 65_536, 0)?,
        (0, text_fault(NumberRange, 1, 1))
    );
    let zeros = filled(alloc, b"2 ", b'0', 9_999_999, b"1 1")?;
    assert_eq!(rt; read_all(alloc, &zeros, 65_536, 0)?, (1, None));
    let blanks = filled(alloc, b"2 1", b' ', 10_000_000, b"1 x")?;
    assert_eq!(rt; read_all(alloc, &blanks, 65_536, 0)?, (1, None));
    Ok(())
}

#[test]
fn reads_headers_of_large_numbers(rt: HostRuntime) -> Result<(), Fail> {
    let texts = [
        "100000000000000000 1\n5",
        "999999999999999999 999999999999999999\n5",
        "4294967296 4294967296\n5\n",
    ];
    for text in texts {
        assert_eq!(rt;
            read_all(rt.alloc(), text.as_bytes(), 7, 0)?,
            (0, text_fault(MatrixShort, 1, 1))
        );
    }
    Ok(())
}

#[test]
fn reads_a_matrix_of_many_entries(rt: HostRuntime) -> Result<(), Fail> {
    let mut text = Vec::from_slice(rt.alloc(), b"1 30000000\n")?;
    for _ in 0..30_000_000 {
        text.extend_from_slice(b"0 ")?;
    }
    assert_eq!(rt; read_all(rt.alloc(), &text, 65_536, 0)?, (1, None));
    Ok(())
}

#[test]
fn ignores_a_long_text(rt: HostRuntime) -> Result<(), Fail> {
    let text = filled(rt.alloc(), b"2 1 1 x", b'y', 60_000_000, b"")?;
    assert_eq!(rt; read_all(rt.alloc(), &text, 65_536, 0)?, (1, None));
    Ok(())
}

#[test]
fn reads_long_lines(rt: HostRuntime) -> Result<(), Fail> {
    let alloc = rt.alloc();
    let mut line = Vec::from_slice(alloc, b"200000")?;
    for _ in 0..200_000 {
        line.extend_from_slice(b" 1")?;
    }
    assert_eq!(rt; read_all(alloc, &line, 65_536, 0)?, (1, None));
    line.extend_from_slice(b" 1")?;
    let place = 6 + 2 * 200_000 + 2;
    assert_eq!(rt;
        read_all(alloc, &line, 65_536, 0)?,
        (0, text_fault(TextKind::WeightSum, 1, place))
    );
    Ok(())
}

/// The most bytes of a text.
const MOST: usize = 67_108_864;

/// What is told of a text of blanks whose last bytes, up to the most that it may have, are `last`,
/// and whose further bytes are `behind`.
fn read_full(
    alloc: Global,
    last: &[u8],
    behind: &[u8],
) -> Result<(usize, Option<NextFault>), Fail> {
    let mut text = vec![in alloc; b' '; MOST - last.len().min(8)]?;
    text.extend_from_slice(last)?;
    text.extend_from_slice(behind)?;
    read_all(alloc, &text, 65_536, 0)
}

/// What stands last, what stands behind, how many items are given, and the fault.
type FullCase = (&'static str, &'static str, usize, Option<NextFault>);

fn full_texts() -> [FullCase; 10] {
    let too_long = Some(NextFault::TooLong);
    [
        ("2 1 1", "", 1, None),
        ("2 1 1\n", "", 1, None),
        ("2 1 1", " ", 0, too_long),
        ("2 1 1\n", " ", 1, too_long),
        ("2 1 1\n", "2 1 1\n", 1, too_long),
        ("", "", 0, None),
        ("", "\n", 0, too_long),
        ("7", " ", 0, too_long),
        ("1 1\n5", " ", 0, too_long),
        ("1 1\n", " ", 0, too_long),
    ]
}

fn full_texts_with_faults() -> [FullCase; 7] {
    let last = 67_108_864;
    [
        ("x", " ", 0, text_fault(BadNumber, 1, last)),
        ("x", "y", 0, Some(NextFault::TooLong)),
        ("x", "", 0, text_fault(BadNumber, 1, last)),
        ("\x01", "y", 0, text_fault(BadByte, 1, last)),
        ("3 1 /Z", "5", 0, text_fault(Quotient, 1, last - 1)),
        ("7\n", " ", 0, text_fault(NoWeights, 1, last - 1)),
        ("1 1\n", "", 0, text_fault(MatrixShort, 1, last - 3)),
    ]
}

#[test]
fn reads_as_many_bytes_as_a_text_may_have(rt: HostRuntime) -> Result<(), Fail> {
    for (last, behind, count, fault) in full_texts() {
        let read = read_full(rt.alloc(), last.as_bytes(), behind.as_bytes())?;
        assert_eq!(rt; read, (count, fault), "{last}");
    }
    for (last, behind, count, fault) in full_texts_with_faults() {
        let read = read_full(rt.alloc(), last.as_bytes(), behind.as_bytes())?;
        assert_eq!(rt; read, (count, fault), "{last}");
    }
    Ok(())
}
