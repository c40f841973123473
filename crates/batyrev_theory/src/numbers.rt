//! Batyrev's numbers are single.
ghost use Rattle.batyrev_theory.specs.Laws.{SurfaceNumbersAreSingle, ThreefoldNumbersAreSingle, FourfoldNumbersAreSingle};

/// In dimension 3 a polytope has one Picard number and one correction.
pub fn surface_numbers_are_single()
    ensures { SurfaceNumbersAreSingle }
{}

/// In dimension 4 it has one number of each kind.
pub fn threefold_numbers_are_single()
    ensures { ThreefoldNumbersAreSingle }
{}

/// And so in dimension 5.
pub fn fourfold_numbers_are_single()
    ensures { FourfoldNumbersAreSingle }
{}
