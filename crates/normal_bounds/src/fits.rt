//! The bounds as numbers: what fits, up to the safe size of points with n coordinates.
ghost use Rattle.normal_bounds.specs.InNumbers.{ValuesFit, MembersFit, StepProductsFit, FunctionsFit, CombineProductsFit};
ghost use Rattle.normal_bounds.specs.Laws.{EntriesFit, StepFits, CombineFits};

/// At most n - 1 factors 2S are below 2^63: so are the entries of normals and of members, and the values of members at differences after at most
/// n - 2 pivots.
pub fn entries_fit()
    ensures { EntriesFit }
{}

/// While two members are left, the two products of a step of elimination, each of an entry and a value, are together below 2^127.
pub fn step_fits()
    ensures { StepFits }
{}

/// Two values at points, each times an entry of a normal, are together below 2^127.
pub fn combine_fits()
    ensures { CombineFits }
{}

/// At most n factors 2S are below 2^76: so are the values of functions at points, their constants, and the values of members at differences.
pub fn values_fit()
    ensures { ValuesFit }
{}

/// The members of a kernel of differences have entries below 2^63, and values at differences below 2^76.
pub fn members_fit()
    ensures { MembersFit }
{}

/// While a kernel has two members, the value of one times an entry of the other is below 2^126.
pub fn step_products_fit()
    ensures { StepProductsFit }
{}

/// A function that is fixed by points has normal entries below 2^63, and a constant and values below 2^76.
pub fn functions_fit()
    ensures { FunctionsFit }
{}

/// A value at a point times an entry of a normal is below 2^126.
pub fn combine_products_fit()
    ensures { CombineProductsFit }
{}
