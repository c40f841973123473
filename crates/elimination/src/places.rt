//! What the own places of a kernel's members tell of the vectors that it spans.
ghost use Rattle.elimination.specs.Laws.{KernelMember, KernelEarliest};

/// A vector of the kernel that is 0 at the own places of all members but one is a multiple of that member.
pub fn kernel_member()
    ensures { KernelMember }
{}

/// No vector of the kernel ends before the least own place, and those that end there are multiples of its member.
pub fn kernel_earliest()
    ensures { KernelEarliest }
{}
