//! The values of weight systems at vectors.
ghost use Rattle.std.specs.Prelude.{◌≡◌, ◌^◌, ◌<◌, ◌≤◌, ◌*◌, ◌*ℤ◌, length, map, pos, nat_abs};
ghost use Rattle.lattice_theory.specs.Vector.{dot};
ghost use Rattle.lattice_core.specs.Weights.{total};
ghost use Rattle.lattice_core.specs.declared.limits.TheConstants.{MOST_WEIGHTS, MOST_DEGREE, MOST_FRAME_ENTRY};
ghost use Rattle.weight_frame.specs.Frame.{largest};

/// The sum of the entries, each times its weight.
pub(crate) fn weighted_value(weights: &[u64], x: &[i64]) -> i64
    requires same { length weights.now ≡ length x.now }
    requires most { length x.now ≤ MOST_WEIGHTS }
    requires weights { total weights.now ≤ MOST_DEGREE }
    requires entries { largest x.now ≤ MOST_FRAME_ENTRY }
    ensures value { result ≡ dot (map pos weights.now) x.now }
    ensures bound { nat_abs result < 2 ^ 55 }
{
    let mut sum = 0_i64;
    for i in 0..x.len() {
        sum += weighted(weights[i], x[i]);
    }
    sum
}

fn weighted(weight: u64, entry: i64) -> i64
    requires weight { weight ≤ MOST_DEGREE }
    requires entry { nat_abs entry ≤ MOST_FRAME_ENTRY }
    ensures value { result ≡ pos weight *ℤ entry }
    ensures bound { nat_abs result ≤ MOST_FRAME_ENTRY * weight }
{
    weight as i64 * entry
}
