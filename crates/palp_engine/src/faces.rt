//! The faces of a polytope, and how many there are of each dimension.

ghost use Rattle.std.specs.Prelude.{◌≡◌, ◌+◌, ◌≤◌, [], length, IsTrue, IfOk, OnOk, MatchResult};
ghost use Rattle.lattice_core.specs.Stops.{Stops};
ghost use Rattle.face_theory.specs.Faces.{TightRelation};
ghost use Rattle.face_theory.specs.Pairings.{valued};
ghost use Rattle.face_poset.specs.Faces.{IsTableOf};
ghost use Rattle.dual_pair.specs.Faces.{AreFacesOf};
ghost use Rattle.palp_engine.specs.FaceSteps.{HasRowRoom, lists_in, CanHaveFaces, IsHeldOf, IsFaceLimit, IsFaceStop, HaveFewFaces, AreNumbersWhere};
ghost use Rattle.lattice_core.specs.declared.limits.TheConstants.{MOST_FACETS, MOST_VERTICES};

use batyrev::{HodgeLine, hodge};
use bit_pool::{MOST_TURNS, RowPool};
use dual_pair::DualPair;
use face_poset::{BuildFault, FaceTable};
use incidence::Incidence;
use lattice_core::{
    Fault, Functional, LimitName, MOST_COORDINATES, MOST_FACETS, MOST_VERTICES, NoMemory, Point,
    Refusal,
};
use std::alloc::Global;
use std::marker::Model;

/// How many vertices and facets the first table is for: their sets have one word each.
const SMALL: usize = 64;

/// The room in which the faces of polytopes are found, one polytope after another: the table is for few vertices and facets until a polytope has
/// more. Contracts see the table of faces.
#[derive(Drop)]
pub(crate) struct Faces {
    pool: RowPool,
    table: FaceTable,
}

impl Model for Faces {
    ghost use Rattle.face_poset.specs.Faces.{TableState};
    ghost use Rattle.palp_engine.specs.FaceSteps.{HasRowRoom};

    ghost Value = { TableState };

    ghost view = { λ f. f.table };

    ghost invariant = { λ f. HasRowRoom f.pool };
}

/// A pool with room for the rows of the most vertices and facets.
fn open_pool(alloc: Global) -> Result<RowPool, NoMemory>
    ensures room { IfOk result HasRowRoom }
    ensures empty { IfOk result (λ pool. pool.young_generation.rows ≡ []) }
{
    match RowPool::open(alloc, MOST_VERTICES, MOST_VERTICES + MOST_FACETS) {
        Ok(pool) => Ok(pool),
        Err(_) => Err(NoMemory),
    }
}

/// A table for so many vertices and facets, 1 to 128 of each.
fn open_table(alloc: Global, vertices: usize, facets: usize) -> Result<FaceTable, NoMemory>
    requires some_vertices { 1 ≤ vertices }
    requires most_vertices { vertices ≤ MOST_VERTICES }
    requires some_facets { 1 ≤ facets }
    requires most_facets { facets ≤ MOST_FACETS }
    ensures members { IfOk result (λ table. table.members ≡ vertices) }
    ensures functions { IfOk result (λ table. table.functions ≡ facets) }
{
    match FaceTable::open(alloc, vertices as u32, facets as u32) {
        Ok(table) => Ok(table),
        Err(_) => Err(NoMemory),
    }
}

/// A table that is large enough for these facets and vertices: another one is opened where it isn't.
fn fit_table(
    alloc: Global,
    table: &mut FaceTable,
    facets: &[Functional],
    vertices: &[Point],
) -> Result<(), NoMemory>
    requires vertices { length vertices.now ≤ MOST_VERTICES }
    requires facets { length facets.now ≤ MOST_FACETS }
    ensures members { OnOk result (length vertices.now ≤ table.new.members) }
    ensures functions { OnOk result (length facets.now ≤ table.new.functions) }
{
    if vertices.len() <= table.members() as usize && facets.len() <= table.functions() as usize {
        return Ok(());
    }
    *table = open_table(alloc, MOST_VERTICES, MOST_FACETS)?;
    Ok(())
}

/// Gives all rows of a pool up. Memory is taken only where it was turned over as often as it may be.
fn clear_pool(alloc: Global, pool: &mut RowPool) -> Result<(), NoMemory>
    requires { HasRowRoom pool.old }
    ensures room { HasRowRoom pool.new }
    ensures empty { OnOk result (pool.new.young_generation.rows ≡ []) }
{
    if pool.turns() < MOST_TURNS {
        pool.reset();
        return Ok(());
    }
    *pool = open_pool(alloc)?;
    Ok(())
}

/// The incidence of vertices and facets, whose rows are added to an empty pool.
fn incidence_of(pool: &mut RowPool, facets: &[Functional], vertices: &[Point]) -> Incidence
    requires room { HasRowRoom pool.old }
    requires empty { pool.old.young_generation.rows ≡ [] }
    requires faces { CanHaveFaces facets.now vertices.now }
    ensures room { HasRowRoom pool.new }
    ensures held { IsHeldOf pool.new result (valued vertices.now facets.now) }
{
    match Incidence::of(vertices, facets, pool) {
        Ok(incidence) => incidence,
        Err(_) => unreachable!(),
    }
}

impl Faces {
    /// Takes the room. `NoMemory` comes where there is no memory for it.
    pub(crate) fn open(alloc: Global) -> Result<Faces, NoMemory> {
        let pool = open_pool(alloc)?;
        let table = open_table(alloc, SMALL, SMALL)?;
        Ok(Faces { pool, table })
    }

    /// Finds the faces of the polytope with these facets and vertices, or refuses more than the limit.
    fn find(
        &mut self,
        alloc: Global,
        facets: &[Functional],
        vertices: &[Point],
    ) -> Result<(), Fault>
        requires { CanHaveFaces facets.now vertices.now }
        ensures { MatchResult result
            (λ done. AreFacesOf (lists_in vertices.now facets.now) self.new)
            (Stops (IsFaceLimit (valued vertices.now facets.now))) }
    {
        fit_table(alloc, &mut self.table, facets, vertices)?;
        clear_pool(alloc, &mut self.pool)?;
        let incidence = incidence_of(&mut self.pool, facets, vertices);
        match self.table.build(&incidence, &self.pool) {
            Ok(()) => Ok(()),
            Err(BuildFault::FaceLimit(told)) => {
                let told = u128::from(told);
                Err(Fault::Refused(Refusal::Limit(LimitName::Faces, told)))
            }
            Err(BuildFault::Stale(_)) => unreachable!(),
        }
    }

    /// How many faces have the ranks 1 to 6.
    pub(crate) fn counts(&self) -> [u32; MOST_COORDINATES]
        ensures { (R : TightRelation) → IsTableOf R self.now → HaveFewFaces R 6 result }
    {
        let table = &self.table;
        [
            table.counts(1),
            table.counts(2),
            table.counts(3),
            table.counts(4),
            table.counts(5),
            table.counts(6),
        ]
    }

    /// Finds the faces of the polytope with these facets and vertices, where they are `asked`; more faces than the limit are refused then.
    pub(crate) fn find_where(
        &mut self,
        alloc: Global,
        asked: bool,
        facets: &[Functional],
        vertices: &[Point],
    ) -> Result<(), Fault>
        requires { CanHaveFaces facets.now vertices.now }
        ensures { MatchResult result
            (λ done. IsTrue asked → AreFacesOf (lists_in vertices.now facets.now) self.new)
            (Stops (IsFaceStop asked (valued vertices.now facets.now))) }
    {
        if !asked {
            return Ok(());
        }
        self.find(alloc, facets, vertices)
    }

    /// Batyrev's numbers of the pair of whose polytope these are the faces, where they are `asked`.
    pub(crate) fn numbers_where(&self, asked: bool, pair: &DualPair) -> HodgeLine
        requires { IsTrue asked → AreFacesOf pair.now.m self.now }
        ensures { AreNumbersWhere asked pair.now.m result }
    {
        if !asked {
            return HodgeLine::None;
        }
        hodge(pair, &self.table)
    }
}
