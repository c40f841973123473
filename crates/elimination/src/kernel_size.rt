//! What the number of a kernel's members tells.
ghost use Rattle.elimination.specs.Laws.{EmptyKernel, SingleKernel, LargeKernel, FewDetermine, SeparatedAreFew};

/// With an empty kernel only 0 pairs to 0 with the vectors.
pub fn empty_kernel()
    ensures { EmptyKernel }
{}

/// With one member all vectors that pair to 0 with the vectors are multiples of it.
pub fn single_kernel()
    ensures { SingleKernel }
{}

/// With two members or more the first two aren't multiples of one vector.
pub fn large_kernel()
    ensures { LargeKernel }
{}

/// Where all vectors that pair to 0 with the vectors are multiples of one that isn't 0, m - 1 of the vectors have the same ones.
pub fn few_determine()
    ensures { FewDetermine }
{}

/// Vectors of which each is told from those behind it by a vector of length m, which pairs to 0 with those and not with it, are at most m.
pub fn separated_are_few()
    ensures { SeparatedAreFew }
{}
