//! The nef partitions of a pair, one after another.

ghost use Rattle.std.specs.Prelude.{◌≡◌, ℕ, ◌+◌, ◌*◌, ◌<◌, ◌≤◌, Bool, true, List, length, replicate, slice_index_or, IfOk, IfErr};
ghost use Rattle.nef_parts.specs.declared.beginnings.TheConstants.{MOST_PARTS};
ghost use Rattle.nef_parts.specs.steps.Tables.{IsTable};
ghost use Rattle.nef_parts.specs.Partitions.{ArePointsOf};
ghost use Rattle.nef_parts.specs.steps.Nef.{IsNefIn, lists_in};
ghost use Rattle.nef_parts.specs.steps.Agreeing.{SomeAgrees, AllAgree, HasAgreeingPlace, AgreesIn};
ghost use Rattle.nef_parts.specs.steps.Completions.{Steps};
ghost use Rattle.nef_parts.specs.Given.{GivesNext};

use crate::agreeing::{Hints, agreeing};
use crate::beginnings::{Beginning, MOST_PARTS, beginning_of};
use crate::masks::{Masks, Table, VertexMask};
use crate::search::{advance, begin};
use dual_pair::Partition;
use lattice_core::NoMemory;
use std::alloc::Global;
use std::marker::Model;

/// A search for the nef partitions of a pair into so many parts, in lexicographic order of their part numbers. Contracts see the lists of the
/// masks, the number of parts, and how many partitions it has given.
#[derive(Drop)]
pub struct NefSearch {
    table: Table,
    codim: usize,
    last: Vec<u8>,
    places: Vec<u32>,
    started: bool,
    hints: Vec<Hints>,
}

impl Model for NefSearch {
    ghost use Rattle.nef_parts.specs.Partitions.{Searched};
    ghost use Rattle.nef_parts.specs.Listing.{given_of};
    ghost use Rattle.nef_parts.specs.steps.Nef.{lists_in};
    ghost use Rattle.nef_parts.specs.steps.Searches.{IsSearch};

    ghost Value = { Searched };

    ghost view = { λ s. record { lists = lists_in s.table; codim = s.codim; given = given_of (lists_in s.table) s.codim s.started s.last.items } };

    ghost invariant = { λ s. IsSearch s.table s.codim s.started s.last.items s.places.items s.hints.items };
}

/// The place among the lattice points of a candidate that agrees for the part.
fn point_at(mask: &VertexMask, begin: &Beginning, part: usize) -> u32
    requires part { part < MOST_PARTS }
    requires some { SomeAgrees mask.now begin.now part }
    ensures { HasAgreeingPlace mask.now begin.now part result }
{
    let own = begin.parts[part];
    match agreeing(&mask.candidates, mask.tight, own, begin.told, 0) {
        Some(j) => mask.candidates[j].place,
        None => unreachable!(),
    }
}

/// Writes the places of the points of all parts, vertex by vertex and part by part.
fn write_points(masks: &[VertexMask], begin: &Beginning, r: usize, points: &mut [u32])
    requires some { 1 ≤ r }
    requires few { r ≤ MOST_PARTS }
    requires count { length points.old ≡ length masks.now * r }
    requires agree { AllAgree masks.now begin.now r }
    ensures count { length points.new ≡ length points.old }
    ensures points { (k : ℕ) → k < length points.new → AgreesIn masks.now begin.now r k (slice_index_or points.new k 0) }
{
    for k in 0..points.len() {
        points[k] = point_at(&masks[k / r], begin, k % r);
    }
}

/// Writes the places of the points of a nef partition.
fn points_of(table: &Table, r: usize, parts: &[u8], points: &mut Vec<u32>)
    requires table { IsTable table.now }
    requires some { 1 ≤ r }
    requires few { r ≤ MOST_PARTS }
    requires nef { IsNefIn table.now r parts.now }
    requires count { length points.old.items ≡ length table.now.vertices.items * r }
    ensures { ArePointsOf (lists_in table.now) r parts.now points.new.items }
{
    let begin = beginning_of(parts, parts.len());
    write_points(&table.masks, &begin, r, points.as_mut_slice());
}

/// Moves to the first nef partition, or where the search has started to the next one.
fn step(table: &Table, r: usize, started: bool, parts: &mut Vec<u8>, hints: &mut Vec<Hints>) -> bool
    requires table { IsTable table.now }
    requires some { 1 ≤ r }
    requires few { r ≤ MOST_PARTS }
    requires whole { length parts.old.items ≡ length table.now.normals.items }
    requires at { started ≡ true → IsNefIn table.now r parts.old.items }
    requires hints { length hints.old.items ≡ length table.now.masks.items }
    ensures parts { length parts.new.items ≡ length parts.old.items }
    ensures hints { length hints.new.items ≡ length hints.old.items }
    ensures steps { Steps (IsNefIn table.now r) started parts.old.items parts.new.items result }
{
    if started {
        return advance(table, r, parts.as_mut_slice(), hints.as_mut_slice());
    }
    begin(table, r, parts.as_mut_slice(), hints.as_mut_slice())
}

impl NefSearch {
    /// A search that has given nothing yet, for 1 to 3 parts. Source: alg-geom/9509009, nef partitions.
    pub fn new(alloc: Global, masks: Masks, codim: u32) -> Result<NefSearch, NoMemory>
        requires some { 1 ≤ codim }
        requires few { codim ≤ MOST_PARTS }
        ensures lists { IfOk result (λ s. s.lists ≡ masks) }
        ensures codim { IfOk result (λ s. s.codim ≡ codim) }
        ensures given { IfOk result (λ s. s.given ≡ 0) }
    {
        let table = masks.table;
        let last = vec![in alloc; 0; table.normals.len()]?;
        let places = vec![in alloc; 0; table.vertices.len() * codim as usize]?;
        let hints = vec![in alloc; [0; MOST_PARTS]; table.masks.len()]?;
        Ok(NefSearch {
            table,
            codim: codim as usize,
            last,
            places,
            started: false,
            hints,
        })
    }

    /// The next nef partition, with its points. It is `None` exactly where all were given. Where there is no memory for it, the search is as
    /// before, and the same partition comes next. Source: alg-geom/9509009, nef partitions.
    pub fn next(&mut self) -> Result<Option<Partition>, NoMemory>
        ensures given { IfOk result (GivesNext self.old self.new) }
        ensures kept { IfErr result (λ _. self.new ≡ self.old) }
    {
        let mut part_of = self.last.clone()?;
        let mut points = self.places.clone()?;
        if !step(
            &self.table,
            self.codim,
            self.started,
            &mut part_of,
            &mut self.hints,
        ) {
            return Ok(None);
        }
        points_of(&self.table, self.codim, &part_of, &mut points);
        self.last = part_of.clone()?;
        self.started = true;
        Ok(Some(Partition { part_of, points }))
    }
}

#[cfg(test)]
mod tests;
