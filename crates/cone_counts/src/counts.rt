//! Counts of the vectors of faces.
ghost use Rattle.std.specs.Prelude.{◌≡◌, ◌+◌, ◌<◌, ◌≤◌, ◌^◌, MatchResult};
ghost use Rattle.lattice_core.specs.Stops.{Stops};
ghost use Rattle.face_theory.specs.Pairings.{paired};
ghost use Rattle.face_poset.specs.Faces.{IsTableOf};
ghost use Rattle.cayley.specs.Limits.{IsWithinScans};
ghost use Rattle.cone_counts.specs.FaceCounts.{IsNefCone, HasCounts, count_of};
ghost use Rattle.cone_counts.specs.Limits.{IsCountRefusal};

use crate::limits::MOST_PAIRS;
use crate::rooms::SideRooms;
use crate::sides::{is_large, side_counts};
use base_counts::DEGREES;
use cayley::Cone;
use dual_pair::{DualPair, Side};
use face_poset::FaceTable;
use lattice_core::{Fault, LimitName, Refusal};
use std::alloc::Global;
use std::marker::Model;
use stringy::FaceNumbers;

/// How many integer vectors of each degree below its dimension the faces of a nef partition's cone have, and their dual faces. Contracts see the
/// dimension of the cone, the number of faces, and all these numbers, of which none is above 2,097,152. Source: alg-geom/9509009.
#[derive(Drop)]
pub struct FaceCounts {
    sum_dim: u32,
    faces: u32,
    m: Vec<u32>,
    n: Vec<u32>,
}

impl Model for FaceCounts {
    ghost use Rattle.cone_counts.specs.FaceCounts.{CountsState};
    ghost use Rattle.cone_counts.specs.CountSteps.{AreKeptCounts};

    ghost Value = { CountsState };

    ghost view = { λ c. record { sum_dim = c.sum_dim; faces = c.faces; m = c.m.items; n = c.n.items } };

    ghost invariant = { λ c. AreKeptCounts (record { sum_dim = c.sum_dim; faces = c.faces; m = c.m.items; n = c.n.items }) };
}

/// A refusal by a limit on counts: the limit and one are told.
fn refused(name: LimitName) -> Fault
    ensures { result ≡ Fault.Refused (Refusal.Limit name (MOST_PAIRS + 1)) }
{
    Fault::Refused(Refusal::Limit(name, u128::from(MOST_PAIRS) + 1))
}

impl FaceCounts {
    /// The counts of a cone's faces. The cone is that of some nef partition of the pair, the table has its faces, and its number of parts is within the
    /// limits that are known before a partition is. In the rooms the points of the pair's dilates are kept for its next partition. Refused are a cone with more than 2,097,152 integer vectors of some degree below its dimension, by
    /// `ConeM`, and then one whose dual has as many, by `ConeN`; 2,097,153 is told. `NoMemory` comes where there is no memory to count.
    /// Source: alg-geom/9509009.
    pub fn of(
        alloc: Global,
        rooms: &mut SideRooms,
        cone: &Cone,
        pair: &DualPair,
        table: &FaceTable,
    ) -> Result<FaceCounts, Fault>
        requires cone { IsNefCone pair.now cone.now }
        requires table { IsTableOf (paired cone.now.members cone.now.functions) table.now }
        requires within { IsWithinScans pair.now cone.now.parts }
        ensures { MatchResult result (HasCounts cone.now table.now) (Stops (IsCountRefusal cone.now)) }
    {
        let sum_dim = cone.dim() + cone.parts();
        let faces = table.len();
        let m = side_counts(alloc, &mut rooms.m, cone, pair, table, Side::M)?;
        if is_large(&m, faces as usize, sum_dim) {
            return Err(refused(LimitName::ConeM));
        }
        let n = side_counts(alloc, &mut rooms.n, cone, pair, table, Side::N)?;
        if is_large(&n, faces as usize, sum_dim) {
            return Err(refused(LimitName::ConeN));
        }
        Ok(FaceCounts {
            sum_dim: sum_dim as u32,
            faces,
            m,
            n,
        })
    }

    /// The dimension of the cone: that of the polytope and the number of parts, together, at most 7.
    pub fn sum_dim(&self) -> u32
        ensures value { result ≡ self.now.sum_dim }
        ensures some { 1 ≤ result }
        ensures few { result ≤ 8 }
    {
        self.sum_dim
    }

    /// How many integer vectors of a degree below the dimension a face has, or its dual face: at most 2,097,152.
    pub fn count(&self, side: Side, degree: u32, face: u32) -> u64
        requires degree { degree < self.now.sum_dim }
        requires face { face < self.now.faces }
        ensures value { result ≡ count_of self.now side degree face }
        ensures few { result ≤ 2 ^ 21 }
    {
        let place = face as usize * DEGREES + degree as usize;
        u64::from(match side {
            Side::M => self.m[place],
            Side::N => self.n[place],
        })
    }
}

impl FaceNumbers for FaceCounts {
    ghost use Rattle.cone_counts.specs.FaceCounts.{numbers_of};

    ghost numbers = { numbers_of };

    fn sum_dim(&self) -> u32 {
        FaceCounts::sum_dim(self)
    }

    fn count(&self, side: Side, degree: u32, face: u32) -> u64 {
        FaceCounts::count(self, side, degree, face)
    }
}
