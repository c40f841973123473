//! Numbers of lattice points by face.
use dual_pair::Side;

/// Tells how many lattice points of each degree the faces of a cone have, and those of the dual cone.
pub trait FaceNumbers {
    ghost use Rattle.std.specs.Prelude.{◌≡◌, ◌^◌, ◌<◌, ◌≤◌};
    ghost use Rattle.stringy.specs.ConeNumbers.{PointNumbers};

    // The dimension of the cone, how many faces there are, and the numbers by side, degree and face.
    ghost numbers: { Self → PointNumbers };

    /// The dimension of the cone, 1 to 8.
    fn sum_dim(&self) -> u32
        ensures value { result ≡ (numbers self.now).dim }
        ensures some { 1 ≤ result }
        ensures few { result ≤ 8 };

    /// How many lattice points of a degree below the dimension a face has, or its dual face: at most 2^21.
    fn count(&self, side: Side, degree: u32, face: u32) -> u64
        requires degree { degree < (numbers self.now).dim }
        requires face { face < (numbers self.now).faces }
        ensures value { result ≡ (numbers self.now).number side degree face }
        ensures few { result ≤ 2 ^ 21 };
}
