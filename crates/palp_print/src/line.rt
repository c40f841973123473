//! Lines of limited length, which take no memory.

ghost use Rattle.std.specs.Prelude.{◌≡◌, ◌+◌, ◌*◌, ◌≤◌, ◌++◌, length, codes};
ghost use Rattle.std.specs.Fmt.{signed_decimal};
ghost use Rattle.arrayvec.specs.ArrayVec.{array_vec_len};
ghost use Rattle.palp_print.specs.Texts.{before_spaces, behind_spaces, function_text, heading as heading_of, titled as titled_of};

use arrayvec::ArrayVec;
use itoa::{Buffer, Integer};
use lattice_core::Functional;

/// A line that is printed: at most 512 bytes, with its line end.
pub(crate) type Line = ArrayVec<u8, 512>;

/// Appends bytes for which there is room.
pub(crate) fn put(line: &mut Line, bytes: &[u8])
    requires { array_vec_len line.old + length bytes.now ≤ 512 }
    ensures bytes { line.new.items ≡ line.old.items ++ bytes.now }
    ensures len { array_vec_len line.new ≡ array_vec_len line.old + length bytes.now }
{
    let _ = line.try_extend_from_slice(bytes);
}

/// Appends a number in decimal, for which there is room.
pub(crate) fn put_number<I: Integer>(line: &mut Line, number: I)
    requires { array_vec_len line.old + 40 ≤ 512 }
    ensures bytes { line.new.items ≡ line.old.items ++ I.text number }
    ensures len { array_vec_len line.new ≤ array_vec_len line.old + 40 }
{
    let mut buffer = Buffer::new();
    put(line, buffer.format(number).as_bytes());
}

/// Appends the normal's entries, each with a space behind it, and the constant.
pub(crate) fn put_function(line: &mut Line, function: &Functional)
    requires { array_vec_len line.old ≤ 100 }
    ensures bytes { line.new.items ≡ line.old.items ++ function_text function.now }
    ensures len { array_vec_len line.new ≤ array_vec_len line.old + 300 }
{
    for entry in function.normal() {
        put_number(line, *entry);
        put(line, b" ");
    }
    put_number(line, function.constant());
}

/// A line of the given text.
pub(crate) fn fixed(text: &[u8]) -> Line
    requires { length text.now ≤ 512 }
    ensures text { result.items ≡ text.now }
    ensures len { array_vec_len result ≡ length text.now }
{
    let mut line = Line::new();
    put(&mut line, text);
    line
}

/// A line of two numbers and a title.
pub(crate) fn heading(first: usize, second: usize, title: &[u8]) -> Line
    requires { length title.now ≤ 100 }
    ensures { result.items ≡ heading_of first second title.now }
{
    let mut line = Line::new();
    put_number(&mut line, first);
    put(&mut line, b" ");
    put_number(&mut line, second);
    put(&mut line, b" ");
    put(&mut line, title);
    put(&mut line, b"\n");
    line
}

/// A line of a title and two numbers.
pub(crate) fn titled(title: &[u8], first: usize, second: usize) -> Line
    requires { length title.now ≤ 100 }
    ensures { result.items ≡ titled_of title.now first second }
{
    let mut line = fixed(title);
    put(&mut line, b" ");
    put_number(&mut line, first);
    put(&mut line, b" ");
    put_number(&mut line, second);
    put(&mut line, b"\n");
    line
}
