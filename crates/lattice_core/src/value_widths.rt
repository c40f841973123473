//! In how many bits the values of functions at points are worked out.
ghost use Rattle.std.specs.Prelude.{◌≡◌, ◌↔◌, ◌*◌, ◌^◌, ◌<◌, ◌≤◌};
ghost use Rattle.lattice_core.specs.Limits.{size_limit_of};
ghost use Rattle.lattice_core.specs.ValueWidths.{AreNarrow, Serves};
ghost use Rattle.lattice_core.specs.declared.limits.TheConstants.{MOST_COORDINATES};
ghost use Rattle.lattice_core.specs.declared.value_widths.Width.TheVariants as Width;

use crate::MOST_COORDINATES;

/// In how many bits values are worked out.
#[derive(Clone, Copy, Debug, PartialEq, Eq)]
pub enum Width {
    /// In 64 bits.
    Narrow,
    /// In 128 bits.
    Wide,
}

/// The width that serves functions and points of this size with `n` coordinates, 1 to 6, within the size limit: 64 bits exactly where (2S)^n is
/// below 2^63 for the size S. So it is up to the limit in dimensions 1 and 2, and up to the sizes 1,048,575, 27,554, 3,104 and 724 in dimensions 3
/// to 6.
pub fn width_of(n: usize, size: u128) -> Width
    requires least { 1 ≤ n }
    requires most { n ≤ MOST_COORDINATES }
    requires within { size ≤ size_limit_of n }
    ensures narrow { (result ≡ Width.Narrow) ↔ AreNarrow n size }
    ensures serves { Serves n size result }
{
    if (2 * size).pow(n as u32) < 1 << 63 {
        Width::Narrow
    } else {
        Width::Wide
    }
}

#[cfg(test)]
mod tests {
    use super::*;

    #[test]
    fn tells_the_width_of_each_size(rt: HostRuntime) {
        assert_eq!(rt; width_of(2, 1_073_741_824), Width::Narrow);
        assert_eq!(rt; width_of(3, 1_048_575), Width::Narrow);
        assert_eq!(rt; width_of(3, 1_048_576), Width::Wide);
        assert_eq!(rt; width_of(4, 27_554), Width::Narrow);
        assert_eq!(rt; width_of(4, 27_555), Width::Wide);
        assert_eq!(rt; width_of(5, 3_104), Width::Narrow);
        assert_eq!(rt; width_of(5, 3_105), Width::Wide);
        assert_eq!(rt; width_of(6, 724), Width::Narrow);
        assert_eq!(rt; width_of(6, 725), Width::Wide);
    }
}
