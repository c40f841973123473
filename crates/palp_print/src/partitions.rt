//! Partitions, and the numbers that belong to one.

ghost use Rattle.std.specs.Prelude.{◌≡◌, ◌+◌, ◌*◌, ◌≤◌, ◌<◌, ◌++◌, length, OnOk};
ghost use Rattle.std.specs.List.{flat_map, range_with_len};
ghost use Rattle.palp_print.specs.Partitions.{partition as partition_of, partition_with as partition_with_of, diamond as diamond_of};
ghost use Rattle.palp_print.specs.Partitions.{part_text, hodge_text, diamond_line};
ghost use Rattle.palp_print.specs.Pages.{Appends};

use crate::page::Page;
use crate::rows::{put_behind, put_number, put_separated};
use lattice_core::NoMemory;

/// Appends a partition with its number.
fn put_partition(text: &mut Vec<u8>, number: u64, part_of: &[u8]) -> Result<(), NoMemory>
    ensures { OnOk result (text.new.items ≡ text.old.items ++ part_text number part_of.now) }
{
    text.extend_from_slice(b"P:")?;
    put_number(text, number)?;
    text.extend_from_slice(b" V:")?;
    put_separated(text, b' ', part_of)?;
    Ok(())
}

/// Appends Hodge numbers and an Euler number, and the line's end.
fn put_hodge(text: &mut Vec<u8>, hodge: &[i128], euler: i128) -> Result<(), NoMemory>
    ensures { OnOk result (text.new.items ≡ text.old.items ++ hodge_text hodge.now euler) }
{
    text.extend_from_slice(b" H:")?;
    put_separated(text, b',', hodge)?;
    text.extend_from_slice(b" [")?;
    put_number(text, euler)?;
    text.extend_from_slice(b"]\n")?;
    Ok(())
}

/// Appends the line of the p-th row.
fn put_diamond_line(
    text: &mut Vec<u8>,
    width: usize,
    numbers: &[i128],
    p: usize,
) -> Result<(), NoMemory>
    requires { p * width + width ≤ length numbers.now }
    ensures { OnOk result (text.new.items ≡ text.old.items ++ diamond_line width numbers.now p) }
{
    text.push(b'h')?;
    put_number(text, p)?;
    text.push(b':')?;
    put_behind(text, b' ', &numbers[p * width..p * width + width])?;
    text.push(b'\n')?;
    Ok(())
}

/// Appends a line for each row.
fn put_diamond(text: &mut Vec<u8>, width: usize, numbers: &[i128]) -> Result<(), NoMemory>
    requires { length numbers.now ≡ width * width }
    ensures { OnOk result (text.new.items ≡ text.old.items ++ flat_map (diamond_line width numbers.now) (range_with_len 0 width)) }
{
    for p in 0..width {
        put_diamond_line(text, width, numbers, p)?;
    }
    Ok(())
}

impl Page {
    /// Appends a partition with its number, `P:number V:` and the part numbers with spaces between them.
    pub fn partition(&mut self, number: u64, part_of: &[u8]) -> Result<(), NoMemory>
        ensures { Appends (partition_of number part_of.now) self.old self.new result }
    {
        self.draft.clear();
        put_partition(&mut self.draft, number, part_of)?;
        self.draft.push(b'\n')?;
        self.text.extend_from_slice(&self.draft)?;
        Ok(())
    }

    /// Appends a partition with its number, Hodge numbers and an Euler number, `P:number V:` and the part numbers with spaces between them,
    /// ` H:` and the Hodge numbers with commas between them, and ` [euler]`.
    pub fn partition_with(
        &mut self,
        number: u64,
        part_of: &[u8],
        hodge: &[i128],
        euler: i128,
    ) -> Result<(), NoMemory>
        ensures { Appends (partition_with_of number part_of.now hodge.now euler) self.old self.new result }
    {
        self.draft.clear();
        put_partition(&mut self.draft, number, part_of)?;
        put_hodge(&mut self.draft, hodge, euler)?;
        self.text.extend_from_slice(&self.draft)?;
        Ok(())
    }

    /// Appends the Hodge numbers h(p, q) for p and q from 0 to k: for each p the line `hp:` and h(p, 0) to h(p, k), each with a space in front of
    /// it. There are (k + 1)^2 numbers, that of p and q at the place p(k + 1) + q, counted from 0; k is at most 6.
    pub fn diamond(&mut self, k: u32, numbers: &[i128]) -> Result<(), NoMemory>
        requires most { k ≤ 6 }
        requires numbers { length numbers.now ≡ (k + 1) * (k + 1) }
        ensures { Appends (diamond_of k numbers.now) self.old self.new result }
    {
        self.draft.clear();
        put_diamond(&mut self.draft, k as usize + 1, numbers)?;
        self.text.extend_from_slice(&self.draft)?;
        Ok(())
    }
}
