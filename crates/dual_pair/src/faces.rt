//! The faces of the polytope of a pair.
ghost use Rattle.std.specs.Prelude.{◌≡◌, ◌≤◌, length};
ghost use Rattle.dual_pair.specs.Faces.{AreFound};

use crate::DualPair;
use bit_pool::{Full, RowPool};
use face_poset::{BuildFault, FaceTable};
use incidence::Incidence;

/// Why a table of faces wasn't filled.
#[derive(Clone, Copy, Debug, PartialEq, Eq)]
pub enum FacesFault {
    /// The pool hasn't room for a row of each vertex and each facet.
    Full(Full),
    /// There are more faces than a table may have: the limit and one.
    FaceLimit(u32),
}

impl DualPair {
    /// Fills a table with the faces of side M: its members are the vertices, its functions the facets. The rows of their incidence are added to the
    /// pool, which is at least as wide as there are vertices, and facets; the table was opened for at least as many. `Full` comes exactly where
    /// fewer rows are free than there are vertices and facets together, and nothing is added then. `FaceLimit` comes exactly where there are more
    /// than 4,096 faces, and tells 4,097. After an error the table is empty. No memory is taken.
    pub fn faces(&self, table: &mut FaceTable, pool: &mut RowPool) -> Result<(), FacesFault>
        requires members { length self.now.m.vertices ≤ table.old.members }
        requires functions { length self.now.m.facets ≤ table.old.functions }
        requires wide_members { length self.now.m.vertices ≤ pool.old.width }
        requires wide_functions { length self.now.m.facets ≤ pool.old.width }
        ensures members { table.new.members ≡ table.old.members }
        ensures functions { table.new.functions ≡ table.old.functions }
        ensures found { AreFound self.now.m pool.old pool.new table.new result }
    {
        let m = self.m();
        let incidence = match Incidence::of(m.vertices(), m.facets(), pool) {
            Ok(incidence) => incidence,
            Err(full) => {
                table.clear();
                return Err(FacesFault::Full(full));
            }
        };
        match table.build(&incidence, pool) {
            Ok(()) => Ok(()),
            Err(BuildFault::FaceLimit(told)) => Err(FacesFault::FaceLimit(told)),
            Err(BuildFault::Stale(_)) => unreachable!(),
        }
    }
}
