//! Products and sums.
ghost use Rattle.polynomial_theory.specs.Laws.{FactorsExchange, ProductIsBothFactors, CoefficientIsOneProduct, SumByKey};

/// Two factors that are put in at powers of u times v may be exchanged.
pub fn factors_exchange()
    ensures { FactorsExchange }
{}

/// A product of polynomials multiplies as its factors do, one after the other.
pub fn product_is_both_factors()
    ensures { ProductIsBothFactors }
{}

/// Each coefficient of A(v/u) B(uv) c u^r is c times one product of a coefficient of A and one of B, or 0.
pub fn coefficient_is_one_product()
    ensures { CoefficientIsOneProduct }
{}

/// A sum over a list is the sum, over the keys of its members, of the sums of what has the key.
pub fn sum_by_key()
    ensures { SumByKey }
{}
