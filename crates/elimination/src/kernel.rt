//! The laws of kernels: that they exist, where they start, and what one more vector makes of them.
ghost use Rattle.elimination.specs.Laws.{KernelExists, KernelGrows, KernelStarts, KernelStays, KernelSteps};

/// Every list of vectors of length m has a kernel, with pivots.
pub fn kernel_exists()
    ensures { KernelExists }
{}

/// A kernel and its pivots have a successor for one more vector.
pub fn kernel_grows()
    ensures { KernelGrows }
{}

/// The unit vectors are the kernel of no vectors.
pub fn kernel_starts()
    ensures { KernelStarts }
{}

/// A vector that pairs to 0 with each member changes neither the kernel nor its pivots.
pub fn kernel_stays()
    ensures { KernelStays }
{}

/// Otherwise the first member that it doesn't pair to 0 with leaves, and that member's line is taken out of those behind it.
pub fn kernel_steps()
    ensures { KernelSteps }
{}
