//! Rows of numbers with marks between them.

ghost use Rattle.std.specs.Prelude.{◌≡◌, [], ◌∷◌, ◌++◌, OnOk};
ghost use Rattle.palp_print.specs.Texts.{before_spaces, behind, separated};

use itoa::{Buffer, Integer};
use lattice_core::NoMemory;

/// Appends a number in decimal.
pub(crate) fn put_number<I: Integer>(text: &mut Vec<u8>, number: I) -> Result<(), NoMemory>
    ensures { OnOk result (text.new.items ≡ text.old.items ++ (I.text number)) }
{
    let mut buffer = Buffer::new();
    text.extend_from_slice(buffer.format(number).as_bytes())?;
    Ok(())
}

/// Appends numbers, each with a mark in front of it.
pub(crate) fn put_behind<I: Integer>(
    text: &mut Vec<u8>,
    mark: u8,
    numbers: &[I],
) -> Result<(), NoMemory>
    ensures { OnOk result (text.new.items ≡ text.old.items ++ (behind (mark ∷ []) I.text numbers.now)) }
{
    for number in numbers {
        text.push(mark)?;
        put_number(text, *number)?;
    }
    Ok(())
}

/// Appends numbers, each with a space behind it.
pub(crate) fn put_before_spaces<I: Integer>(
    text: &mut Vec<u8>,
    numbers: &[I],
) -> Result<(), NoMemory>
    ensures { OnOk result (text.new.items ≡ text.old.items ++ (before_spaces I.text numbers.now)) }
{
    for number in numbers {
        put_number(text, *number)?;
        text.push(b' ')?;
    }
    Ok(())
}

/// Appends numbers with a mark between each two.
pub(crate) fn put_separated<I: Integer>(
    text: &mut Vec<u8>,
    mark: u8,
    numbers: &[I],
) -> Result<(), NoMemory>
    ensures { OnOk result (text.new.items ≡ text.old.items ++ (separated (mark ∷ []) I.text numbers.now)) }
{
    if let [first, rest @ ..] = numbers {
        put_number(text, *first)?;
        put_behind(text, mark, rest)?;
    }
    Ok(())
}
