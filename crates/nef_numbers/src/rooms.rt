//! The room in which the numbers of cones are found.
ghost use Rattle.std.specs.Prelude.{◌≡◌, [], ◌≤◌, length, IfOk, OnOk, MatchResult};
ghost use Rattle.lattice_core.specs.Stops.{Stops};
ghost use Rattle.face_theory.specs.Pairings.{paired};
ghost use Rattle.incidence.specs.Incidences.{IsToldIn};
ghost use Rattle.poset_g.specs.Numbered.{HasAllFaces, HasSmallRanks};
ghost use Rattle.dual_pair.specs.Pairs.{IsPair};
ghost use Rattle.cayley.specs.Limits.{IsWithinScans};
ghost use Rattle.cone_counts.specs.FaceCounts.{IsNefCone};
ghost use Rattle.nef_numbers.specs.Numbers.{HasFaces, HasConeNumbers, IsConeRefusal};
ghost use Rattle.nef_numbers.specs.RoomSteps.{TellsFew, HasRayRoom, IsOpenedFor, HasRoomFor, IsFacesRefusal, HasSmallG, IsLargeRefusal};
ghost use Rattle.nef_numbers.specs.declared.limits.TheConstants.{FEW, MOST_RAYS, MOST_FUNCTIONS};

use crate::limits::{FEW, MOST_FUNCTIONS, MOST_RAYS};
use bit_pool::{MOST_TURNS, RowPool};
use cayley::Cone;
use cone_counts::{FaceCounts, SideRooms};
use dual_pair::DualPair;
use face_poset::{BuildFault, FaceTable};
use incidence::Incidence;
use lattice_core::{Fault, LimitName, NoMemory, Refusal};
use poset_g::{GFault, GTable};
use std::alloc::Global;
use std::marker::Model;
use stringy::{EPoly, e_poly};

/// The room in which the faces of cones are found, one cone after another: a pool for the rows of a cone, two tables of faces, one for cones with
/// few rays and functions, and rooms for the points of a pair's dilates. Contracts see nothing of it.
#[derive(Drop)]
pub struct ConeRooms {
    pool: RowPool,
    small: FaceTable,
    large: FaceTable,
    points: SideRooms,
}

impl Model for ConeRooms {
    ghost use Rattle.nef_numbers.specs.RoomSteps.{AreRooms};

    ghost Value = { Unit {0} };

    ghost view = { λ _. tt };

    ghost invariant = { λ r. AreRooms r.pool r.small r.large };
}

/// A pool with room for the rows of the most rays and functions.
fn open_pool(alloc: Global) -> Result<RowPool, NoMemory>
    ensures room { IfOk result HasRayRoom }
    ensures empty { IfOk result (λ pool. pool.young_generation.rows ≡ []) }
{
    match RowPool::open(alloc, MOST_RAYS, MOST_RAYS + MOST_FUNCTIONS) {
        Ok(pool) => Ok(pool),
        Err(_) => Err(NoMemory),
    }
}

/// A table for so many rays and functions.
fn open_table(alloc: Global, rays: usize, functions: usize) -> Result<FaceTable, NoMemory>
    requires some_rays { 1 ≤ rays }
    requires most_rays { rays ≤ MOST_RAYS }
    requires some_functions { 1 ≤ functions }
    requires most_functions { functions ≤ MOST_FUNCTIONS }
    ensures { IfOk result (IsOpenedFor rays functions) }
{
    match FaceTable::open(alloc, rays as u32, functions as u32) {
        Ok(table) => Ok(table),
        Err(_) => Err(NoMemory),
    }
}

/// Gives all rows of a pool up. Memory is taken only where it was turned over as often as it may be.
fn clear_pool(alloc: Global, pool: &mut RowPool) -> Result<(), NoMemory>
    requires { HasRayRoom pool.old }
    ensures room { HasRayRoom pool.new }
    ensures empty { OnOk result (pool.new.young_generation.rows ≡ []) }
{
    if pool.turns() < MOST_TURNS {
        pool.reset();
        return Ok(());
    }
    *pool = open_pool(alloc)?;
    Ok(())
}

/// Whether a cone has few rays and functions.
fn has_few(cone: &Cone) -> bool
    ensures { TellsFew cone.now result }
{
    cone.rays() <= FEW && cone.functions() <= FEW
}

/// The incidence of a cone's rays and functions, whose rows are added to an empty pool.
fn incidence_of(cone: &Cone, pool: &mut RowPool) -> Incidence
    requires room { HasRayRoom pool.old }
    requires empty { pool.old.young_generation.rows ≡ [] }
    requires few { HasRoomFor cone.now }
    ensures room { HasRayRoom pool.new }
    ensures told { IsToldIn pool.old pool.new (paired cone.now.members cone.now.functions) result }
{
    match cone.incidence(pool) {
        Ok(incidence) => incidence,
        Err(_) => unreachable!(),
    }
}

/// Finds the faces of a cone, for which the table was opened large enough, or refuses more than the limit.
fn find_faces(cone: &Cone, pool: &mut RowPool, table: &mut FaceTable) -> Result<(), Fault>
    requires room { HasRayRoom pool.old }
    requires empty { pool.old.young_generation.rows ≡ [] }
    requires few { HasRoomFor cone.now }
    requires members { length cone.now.members ≤ table.old.members }
    requires functions { length cone.now.functions ≤ table.old.functions }
    ensures room { HasRayRoom pool.new }
    ensures opened { IsOpenedFor table.old.members table.old.functions table.new }
    ensures found { MatchResult result (λ done. HasFaces cone.now table.new) (Stops (IsFacesRefusal cone.now)) }
{
    let incidence = incidence_of(cone, pool);
    match table.build(&incidence, pool) {
        Ok(()) => {
            let _few = table.len();
            Ok(())
        }
        Err(BuildFault::FaceLimit(told)) => {
            let told = u128::from(told);
            Err(Fault::Refused(Refusal::Limit(LimitName::ConeFaces, told)))
        }
        Err(BuildFault::Stale(_)) => unreachable!(),
    }
}

/// The polynomials G and G' of the intervals of a table's faces, or the refusal of the first large coefficient.
fn coefficients_of(alloc: Global, table: &FaceTable) -> Result<GTable, Fault>
    requires faces { HasAllFaces table.now }
    requires ranks { HasSmallRanks table.now }
    ensures { MatchResult result (HasSmallG table.now) (Stops (IsLargeRefusal table.now)) }
{
    match GTable::of(alloc, table) {
        Ok(values) => Ok(values),
        Err(GFault::Coef { value, .. }) => {
            let told = value.unsigned_abs();
            Err(Fault::Refused(Refusal::Limit(LimitName::Coef, told)))
        }
        Err(GFault::NoMemory) => Err(Fault::NoMemory),
    }
}

/// The numbers of a cone of so many parts, from a table of its faces.
fn numbers_of_faces(
    alloc: Global,
    points: &mut SideRooms,
    table: &FaceTable,
    cone: &Cone,
    pair: &DualPair,
    parts: u32,
) -> Result<EPoly, Fault>
    requires pair { IsPair pair.now }
    requires cone { IsNefCone pair.now cone.now }
    requires parts { cone.now.parts ≡ parts }
    requires within { IsWithinScans pair.now parts }
    requires faces { HasFaces cone.now table.now }
    ensures { MatchResult result (HasConeNumbers cone.now) (Stops (IsConeRefusal cone.now)) }
{
    let counts = FaceCounts::of(alloc, points, cone, pair, table)?;
    let values = coefficients_of(alloc, table)?;
    Ok(e_poly(&counts, table, &values, parts))
}

impl ConeRooms {
    /// Takes the room. `NoMemory` comes where there is no memory for it.
    pub fn open(alloc: Global) -> Result<ConeRooms, NoMemory> {
        let pool = open_pool(alloc)?;
        let small = open_table(alloc, FEW, FEW)?;
        let large = open_table(alloc, MOST_RAYS, MOST_FUNCTIONS)?;
        let points = SideRooms::new(alloc);
        Ok(ConeRooms {
            pool,
            small,
            large,
            points,
        })
    }

    /// The numbers of a cone of so many parts.
    pub(crate) fn numbers(
        &mut self,
        alloc: Global,
        cone: &Cone,
        pair: &DualPair,
        parts: u32,
    ) -> Result<EPoly, Fault>
        requires pair { IsPair pair.now }
        requires cone { IsNefCone pair.now cone.now }
        requires parts { cone.now.parts ≡ parts }
        requires within { IsWithinScans pair.now parts }
        ensures { MatchResult result (HasConeNumbers cone.now) (Stops (IsConeRefusal cone.now)) }
    {
        clear_pool(alloc, &mut self.pool)?;
        if has_few(cone) {
            find_faces(cone, &mut self.pool, &mut self.small)?;
            return numbers_of_faces(alloc, &mut self.points, &self.small, cone, pair, parts);
        }
        find_faces(cone, &mut self.pool, &mut self.large)?;
        numbers_of_faces(alloc, &mut self.points, &self.large, cone, pair, parts)
    }
}
