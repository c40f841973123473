//! What every interior-point system meets, so that a search may cut.
ghost use Rattle.interior_point_theory.specs.Laws.{LargestWeights, SomeExponentAboveOne, TakenTwice, WeightsMayFollow};

/// The k-th largest weight, times k + 1, isn't above the degree.
pub fn largest_weights()
    ensures { LargestWeights }
{}

/// Each weight has an exponent above 1 in some exponent vector: an interior point is refuted where it has none.
pub fn some_exponent_above_one()
    ensures { SomeExponentAboveOne }
{}

/// The weights take the degree with each of them twice: an interior point is refuted where they don't.
pub fn taken_twice()
    ensures { TakenTwice }
{}

/// In a system each weight may follow those before it.
pub fn weights_may_follow()
    ensures { WeightsMayFollow }
{}
