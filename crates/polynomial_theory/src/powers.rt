//! How low and how high the powers in a product are.
ghost use Rattle.polynomial_theory.specs.Laws.{LowestPower, HighestPowers, ProductDegree};

/// How low the powers of u become when a polynomial multiplies.
pub fn lowest_power()
    ensures { LowestPower }
{}

/// How high the powers of u and v become when a polynomial multiplies.
pub fn highest_powers()
    ensures { HighestPowers }
{}

/// The degree of a product is at most the sum of those of its factors.
pub fn product_degree()
    ensures { ProductDegree }
{}
