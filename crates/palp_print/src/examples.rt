//! Worked examples.

ghost use Rattle.palp_print.specs.Examples.{AreBlocks, AreLines, ArePartitions, AreNotes};

/// An example, and no work: the blocks of a triangle, single lines, partitions with their numbers, and notes.
pub fn layouts_are_an_example()
    ensures blocks { AreBlocks }
    ensures lines { AreLines }
    ensures partitions { ArePartitions }
    ensures notes { AreNotes }
{}
