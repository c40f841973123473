//! The weights that are taken.
ghost use Rattle.std.specs.Prelude.{◌≡◌, ◌↔◌, ◌≤◌, length, IsTrue};
ghost use Rattle.std.specs.List.{All};
ghost use Rattle.lattice_theory.specs.Order.{Ascends};
ghost use Rattle.lattice_core.specs.Weights.{total};

/// The largest degree of 2 to 5 weights.
pub const MOST_DEGREE_OF_FIVE: u64 = 4_095;

/// The largest degree of 6 weights.
pub const MOST_DEGREE_OF_SIX: u64 = 250;

/// Whether the weights don't descend.
pub(crate) fn is_ascending(weights: &[u64]) -> bool
    ensures { IsTrue result ↔ Ascends (λ v w. v ≤ w) weights.now }
{
    for i in 1..weights.len() {
        if weights[i - 1] > weights[i] {
            return false;
        }
    }
    true
}

/// The sum of weights, where it is at most 2^32.
pub(crate) fn sum_of(weights: &[u64]) -> u64
    requires { total weights.now ≤ 4_294_967_296 }
    ensures { result ≡ total weights.now }
{
    let mut sum = 0;
    for w in weights {
        sum += *w;
    }
    sum
}
