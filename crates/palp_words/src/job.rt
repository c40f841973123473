// What the words ask for.

/// What the command line asks for.
#[derive(Clone, Copy, Debug, PartialEq, Eq)]
pub enum Job {
    /// Blocks of text for each item.
    Poly(PolyFlags),
    /// The nef partitions of each item.
    Nef(NefWords),
    /// The interior-point weight systems of a range of degrees.
    Cws(CwsWords),
    /// A summary over the interior-point weight systems of a range of degrees.
    Sweep(SweepWords),
}

/// The letters of `poly` that are on.
#[derive(Clone, Copy, Debug, PartialEq, Eq)]
pub struct PolyFlags {
    /// The general line, letter `g`, also where no block is asked.
    pub general: bool,
    /// The points block, letter `p`.
    pub points: bool,
    /// The vertices block, letter `v`.
    pub vertices: bool,
    /// The facets block, letter `e`.
    pub equations: bool,
    /// The pairing block, letter `m`.
    pub matrix: bool,
    /// The dual points block, letter `d`.
    pub dual_points: bool,
    /// The incidence block, letter `i`.
    pub incidence: bool,
    /// Items that aren't reflexive print nothing, letter `r`.
    pub reflexive_only: bool,
    /// The dual takes the place of a reflexive item, letter `D`.
    pub dual_input: bool,
    /// No dual is computed, letter `n`.
    pub plain: bool,
}

/// The words of `nef`.
#[derive(Clone, Copy, Debug, PartialEq, Eq)]
pub struct NefWords {
    /// The codimension, 1 to 3.
    pub codim: u32,
    /// No Hodge numbers are computed, letter `p`.
    pub list_only: bool,
    /// All Hodge numbers are printed, letter `H`.
    pub full: bool,
}

/// The words of `cws`.
#[derive(Clone, Copy, Debug, PartialEq, Eq)]
pub struct CwsWords {
    /// The dimension, 1 to 5: a system has one weight more.
    pub dim: u32,
    /// The least degree, at least 1.
    pub low: u32,
    /// The largest degree, from the least one to 4,095, or to 250 in dimension 5.
    pub high: u32,
    /// Only systems with a reflexive polytope are listed, the word `-r`.
    pub reflexive_only: bool,
}

/// The words of `sweep`, with the ranges of those of `cws`.
#[derive(Clone, Copy, Debug, PartialEq, Eq)]
pub struct SweepWords {
    /// The dimension.
    pub dim: u32,
    /// The least degree.
    pub low: u32,
    /// The largest degree.
    pub high: u32,
}
