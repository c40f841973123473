//! The bounds on vectors that pair to 0 with given ones, on normals, and on the members of a kernel.
ghost use Rattle.normal_bounds.specs.Laws.{CountingBound, NormalBound, MemberBound};

/// Some vector of k + 1 entries that isn't 0 pairs to 0 with k vectors of absolute sum at most T, and has entries of at most T^k.
pub fn counting_bound()
    ensures { CountingBound }
{}

/// A function that is fixed by n points of absolute sum at most S has normal entries of at most (2S)^(n-1), and values of at most (2S)^n at points
/// of absolute sum at most S.
pub fn normal_bound()
    ensures { NormalBound }
{}

/// A primitive member of a kernel with j pivots of absolute sum at most T has entries of at most T^j, and values of at most T^(j+1).
pub fn member_bound()
    ensures { MemberBound }
{}
