//! The laws of what products and terms ask.
ghost use Rattle.small_poly.specs.Laws.{SumsAreSmall, TermsAreSmall, TermsFit};

/// What products ask of sums holds where each product of two coefficients is at most 2^122 in size.
pub fn sums_are_small()
    ensures products { SumsAreSmall }
    ensures terms { TermsAreSmall }
{}

/// What a term asks of powers holds where the degrees of both polynomials are small enough.
pub fn terms_fit()
    ensures { TermsFit }
{}
