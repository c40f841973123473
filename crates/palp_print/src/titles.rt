//! The words that blocks and counts are titled with.

ghost use Rattle.std.specs.Prelude.{◌≡◌, ◌≤◌, length, codes};
ghost use Rattle.palp_print.specs.Blocks.{title_text};
ghost use Rattle.palp_print.specs.Lists.{count_text};

/// What a block of points is of.
#[derive(Clone, Copy, Debug, PartialEq, Eq)]
pub enum Title {
    /// The vertices.
    Vertices,
    /// The lattice points.
    Points,
    /// The lattice points of the dual.
    DualPoints,
}

/// What a closing line counts.
#[derive(Clone, Copy, Debug, PartialEq, Eq)]
pub enum CountTitle {
    /// Nef partitions.
    Nef,
    /// Interior-point weight systems.
    Ip,
    /// Those with a reflexive polytope.
    Ref,
}

/// The words of a title: at most 16 bytes.
pub(crate) fn title_words(title: Title) -> &'static [u8]
    ensures words { result.now ≡ title_text title }
    ensures short { length result.now ≤ 16 }
{
    match title {
        Title::Vertices => b"Vertices",
        Title::Points => b"Points",
        Title::DualPoints => b"Points of P-dual",
    }
}

/// The words of a count: at most 5 bytes.
pub(crate) fn count_words(title: CountTitle) -> &'static [u8]
    ensures words { result.now ≡ count_text title }
    ensures short { length result.now ≤ 5 }
{
    match title {
        CountTitle::Nef => b"#nef:",
        CountTitle::Ip => b"#ip:",
        CountTitle::Ref => b"#ref:",
    }
}

/// The words in front of a dual's vertices.
pub(crate) fn dual_title() -> &'static [u8]
    ensures words { result.now ≡ codes "Vertices of P-dual" }
    ensures short { length result.now ≤ 18 }
{
    b"Vertices of P-dual"
}
