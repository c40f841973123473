//! Incidences, and how they are made of points and functions, or of a table.
ghost use Rattle.std.specs.Prelude.{◌≡◌, ◌↔◌, ◌+◌, ◌*◌, ◌<◌, ◌≤◌, length, IsTrue, MatchResult};
ghost use Rattle.face_theory.specs.Pairings.{valued};
ghost use Rattle.bit_pool.specs.Bits.{HasBit};
ghost use Rattle.bit_pool.specs.Pools.{OnRow, IsStale};
ghost use Rattle.bit_pool.specs.declared.limits.TheConstants.{MOST_ROWS};
ghost use Rattle.incidence.specs.Incidences.{HaveValues, IsHeld, IsTold, member_id, function_id, tabled};
ghost use Rattle.incidence.specs.RowSteps.{IsPlanned, LacksRoom};

use crate::table::push_table;
use crate::values::{push_functions, push_members, width_for};
use bit_pool::{Full, RowId, RowPool, Stale};
use lattice_core::{Functional, Point};
use std::marker::Model;

/// Members and functions in a relation "tight" that the rows of a pool tell: a member is tight on a function where the member's row has the
/// function's bit. Contracts see the numbers of members and functions, and where their rows stand: first the members' and then the functions',
/// at consecutive places of one epoch.
#[derive(Clone, Copy, Debug, PartialEq, Eq)]
pub struct Incidence {
    members: u32,
    functions: u32,
    first: RowId,
}

impl Model for Incidence {
    ghost use Rattle.std.specs.Prelude.{◌+◌, ◌≤◌};
    ghost use Rattle.bit_pool.specs.declared.limits.TheConstants.{MOST_ROWS};
    ghost use Rattle.incidence.specs.Incidences.{IncidenceState};

    ghost Value = { IncidenceState };

    ghost view = { λ i. record { members = i.members; functions = i.functions; epoch = i.first.epoch; first = i.first.place } };

    ghost inverse = { λ i. record { members = i.members; functions = i.functions; first = record { epoch = i.epoch; place = i.first } } };

    ghost invariant = { λ i. i.first.place + (i.members + i.functions) ≤ MOST_ROWS };
}

/// The incidence of so many members and functions whose rows will be pushed next, where there is room for them.
fn planned(members: usize, functions: usize, pool: &RowPool) -> Result<Incidence, Full>
    requires members { members ≤ pool.now.width }
    requires functions { functions ≤ pool.now.width }
    ensures { MatchResult result (IsPlanned pool.now members functions) (λ full. LacksRoom pool.now members functions full) }
{
    let first = pool.next_id();
    let reserved = pool.reserved();
    if reserved - pool.used() < members + functions {
        return Err(Full { reserved });
    }
    Ok(Incidence {
        members: members as u32,
        functions: functions as u32,
        first,
    })
}

impl Incidence {
    /// The incidence of points and functions: a point is tight on a function where the function's value at it is 0. The rows are added to the
    /// pool, which is at least as wide as there are points, and functions. `Full` comes exactly where it hasn't room for a row of each point and
    /// function; nothing is added then. All have one dimension, the absolute values of a point's entries sum to at most 2^33, and a constant is
    /// at most 2^100 in absolute value.
    pub fn of(
        points: &[Point],
        functions: &[Functional],
        pool: &mut RowPool,
    ) -> Result<Incidence, Full>
        requires values { HaveValues points.now functions.now }
        requires members { length points.now ≤ pool.old.width }
        requires functions { length functions.now ≤ pool.old.width }
        ensures { IsTold pool.old pool.new (valued points.now functions.now) result }
    {
        let incidence = planned(points.len(), functions.len(), pool)?;
        let width = width_for(points, functions);
        push_members(pool, points, functions, width);
        push_functions(pool, points, functions, width);
        Ok(incidence)
    }

    /// The same of a table, which tells at the place `member * functions + function` whether the member is tight on the function.
    pub fn from_table(
        members: u32,
        functions: u32,
        tight: &[bool],
        pool: &mut RowPool,
    ) -> Result<Incidence, Full>
        requires members { members ≤ pool.old.width }
        requires functions { functions ≤ pool.old.width }
        requires entries { length tight.now ≡ members * functions }
        ensures { IsTold pool.old pool.new (tabled members functions tight.now) result }
    {
        let (rows, columns) = (members as usize, functions as usize);
        let incidence = planned(rows, columns, pool)?;
        push_table(pool, tight, rows, columns, columns, 1);
        push_table(pool, tight, columns, 1, rows, columns);
        Ok(incidence)
    }

    /// The number of members.
    pub fn members(&self) -> u32
        ensures { result ≡ self.now.members }
    {
        self.members
    }

    /// The number of functions.
    pub fn functions(&self) -> u32
        ensures { result ≡ self.now.functions }
    {
        self.functions
    }

    /// The id of a member's row.
    pub fn member_row(&self, member: u32) -> RowId
        requires { member < self.now.members }
        ensures { result ≡ member_id self.now member }
    {
        RowId {
            epoch: self.first.epoch,
            place: self.first.place + member,
        }
    }

    /// The id of a function's row.
    pub fn function_row(&self, function: u32) -> RowId
        requires { function < self.now.functions }
        ensures { result ≡ function_id self.now function }
    {
        RowId {
            epoch: self.first.epoch,
            place: self.first.place + self.members + function,
        }
    }

    /// Whether a member is tight on a function, of which the member's row alone is asked. `Stale` comes exactly where the pool doesn't have it.
    pub fn tight(&self, pool: &RowPool, member: u32, function: u32) -> Result<bool, Stale>
        requires member { member < self.now.members }
        requires function { function < self.now.functions }
        requires held { IsHeld pool.now self.now }
        ensures { MatchResult result
            (λ yes. OnRow pool.now (member_id self.now member) (λ words. IsTrue yes ↔ HasBit words function))
            (IsStale pool.now (member_id self.now member)) }
    {
        pool.has(self.member_row(member), function as usize)
    }
}
