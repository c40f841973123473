//! The limits of an item. This project's own.
ghost use Rattle.std.specs.Prelude.{◌≡◌, ◌≤◌, pos};
ghost use Rattle.lattice_core.specs.Limits.{size_limit_of};
ghost use Rattle.lattice_core.specs.declared.limits.TheConstants.{MOST_COORDINATES};

use normal_bounds::limits::{
    MOST_SIZE_1, MOST_SIZE_2, MOST_SIZE_3, MOST_SIZE_4, MOST_SIZE_5, MOST_SIZE_6,
};

/// The most weight systems of a weight line.
pub const MOST_SYSTEMS: usize = 6;

/// The most weights of a weight system.
pub const MOST_WEIGHTS: usize = 12;

/// The largest degree of a weight system.
pub const MOST_DEGREE: u64 = 32_767;

/// The largest product of all degrees of a weight line: 2^40.
pub const MOST_DEGREE_PRODUCT: u128 = 1_099_511_627_776;

/// The largest absolute value of an entry of the vectors that the recursion of a weight lattice's frame makes: 2^40.
pub const MOST_FRAME_ENTRY: u128 = 1_099_511_627_776;

/// The largest absolute value of a coordinate of a point in a frame: 2^30.
pub const MOST_COORDINATE: u128 = 1_073_741_824;

/// The most coordinates of a point: the largest dimension. The least is 1.
pub const MOST_COORDINATES: usize = 6;

/// The largest number of a matrix's header: the most lines, and the most columns.
pub const MOST_NUMBERS: u64 = 16_384;

/// The most exponent vectors of weight systems.
pub const MOST_MONOMIALS: usize = 16_384;

/// The most facets of a hull.
pub const MOST_FACETS: usize = 128;

/// The most vertices of a hull.
pub const MOST_VERTICES: usize = 128;

/// The most lattice points of a hull.
pub const MOST_POINTS: usize = 16_384;

/// The largest size that points with `n` coordinates may have, `n` from 1 to 6. The size is the sum over the coordinates of the largest absolute
/// value. It is at most 2^30.
pub fn size_limit(n: usize) -> i64
    requires least { 1 ≤ n }
    requires most { n ≤ MOST_COORDINATES }
    ensures { result ≡ pos (size_limit_of n) }
{
    i64::from(match n {
        1 => MOST_SIZE_1,
        2 => MOST_SIZE_2,
        3 => MOST_SIZE_3,
        4 => MOST_SIZE_4,
        5 => MOST_SIZE_5,
        _ => MOST_SIZE_6,
    })
}

#[cfg(test)]
mod tests {
    use super::*;

    #[test]
    fn tells_the_size_of_each_dimension(rt: HostRuntime) {
        for (n, want) in [
            (1, 1_073_741_824),
            (2, 1_073_741_824),
            (3, 16_777_216),
            (4, 100_000),
            (5, 8_000),
            (6, 1_024),
        ] {
            assert_eq!(rt; size_limit(n), want);
        }
    }

    #[test]
    fn tells_each_limit(rt: HostRuntime) {
        for (limit, want) in [
            (MOST_SYSTEMS, 6),
            (MOST_WEIGHTS, 12),
            (MOST_COORDINATES, 6),
            (MOST_MONOMIALS, 16_384),
            (MOST_FACETS, 128),
            (MOST_VERTICES, 128),
            (MOST_POINTS, 16_384),
        ] {
            assert_eq!(rt; limit, want);
        }
        assert_eq!(rt; MOST_DEGREE, 32_767);
        assert_eq!(rt; MOST_NUMBERS, 16_384);
        assert_eq!(rt; MOST_DEGREE_PRODUCT, 1_099_511_627_776);
        assert_eq!(rt; MOST_FRAME_ENTRY, 1_099_511_627_776);
        assert_eq!(rt; MOST_COORDINATE, 1_073_741_824);
    }
}
