//! What is known of a pair before its nef partitions are sought.

ghost use Rattle.std.specs.Prelude.{◌≡◌, ◌≤◌, List, ℤ, length, IfOk};
ghost use Rattle.std.specs.List.{All};
ghost use Rattle.lattice_core.specs.declared.limits.TheConstants.{MOST_POINTS};
ghost use Rattle.nef_parts.specs.Lists.{lists_of};
ghost use Rattle.nef_parts.specs.steps.Rows.{IsPairable, ArePairings};
ghost use Rattle.nef_parts.specs.steps.Tables.{AreCandidates, IsMask, AreMasks, AreTableLists};

use crate::pairings::{Pairings, all_pairings, pairings_of};
use bit_rows::BitRow;
use dual_pair::DualPair;
use lattice_core::{NoMemory, Point};
use std::alloc::Global;
use std::marker::Model;

/// A lattice point that may be the point of a part at a vertex: its place among the lattice points, and the places of the normals to which it
/// pairs to -1.
#[derive(Clone, Copy)]
pub(crate) struct Candidate {
    pub(crate) place: u32,
    pub(crate) tight: BitRow,
}

/// The places of the normals to which a vertex pairs to -1, and its candidates.
#[derive(Drop)]
pub(crate) struct VertexMask {
    pub(crate) tight: BitRow,
    pub(crate) candidates: Vec<Candidate>,
}

/// The lists of a pair with the masks of its vertices.
#[derive(Drop)]
pub(crate) struct Table {
    pub(crate) vertices: Vec<Point>,
    pub(crate) points: Vec<Point>,
    pub(crate) normals: Vec<Point>,
    pub(crate) masks: Vec<VertexMask>,
}

/// What a search for the nef partitions of a pair needs: for each vertex of side M the lattice points of side M that are nowhere above 0 where
/// the vertex pairs to -1, with the vertices of side N to which they pair to -1. Contracts see the vertices and the lattice points of side
/// M and the vertices of side N, of which it keeps copies. This project's own.
#[derive(Drop)]
pub struct Masks {
    pub(crate) table: Table,
}

impl Model for Masks {
    ghost use Rattle.nef_parts.specs.Lists.{PairLists};
    ghost use Rattle.nef_parts.specs.steps.Tables.{IsTable};

    ghost Value = { PairLists };

    ghost view = { λ m. record { vertices = m.table.vertices.items; points = m.table.points.items; normals = m.table.normals.items } };

    ghost invariant = { λ m. IsTable m.table };
}

/// The candidates of a vertex that pairs to -1 at these places.
fn candidates_of(
    alloc: Global,
    tight: BitRow,
    rows: &[Pairings],
) -> Result<Vec<Candidate>, NoMemory>
    requires { length rows.now ≤ MOST_POINTS }
    ensures { IfOk result (λ candidates. AreCandidates (length rows.now) tight rows.now candidates.items) }
{
    let mut candidates = Vec::new(alloc);
    for place in 0..rows.len() {
        if tight.is_part_of(rows[place].low) {
            candidates.push(Candidate {
                place: place as u32,
                tight: rows[place].tight,
            })?;
        }
    }
    Ok(candidates)
}

/// The mask of a vertex, where the points' rows are known.
fn mask_of(
    alloc: Global,
    vertex: &Point,
    normals: &[Point],
    rows: &[Pairings],
) -> Result<VertexMask, NoMemory>
    requires pairable { IsPairable normals.now vertex.now }
    requires few { length rows.now ≤ MOST_POINTS }
    ensures { IfOk result (λ mask. (points : List (List ℤ)) → ArePairings (length points) normals.now points rows.now
        → IsMask normals.now points vertex.now mask) }
{
    let tight = pairings_of(vertex, normals).tight;
    let candidates = candidates_of(alloc, tight, rows)?;
    Ok(VertexMask { tight, candidates })
}

/// The masks of all vertices.
fn masks_of(
    alloc: Global,
    vertices: &[Point],
    points: &[Point],
    normals: &[Point],
) -> Result<Vec<VertexMask>, NoMemory>
    requires vertices { All (IsPairable normals.now) vertices.now }
    requires points { All (IsPairable normals.now) points.now }
    requires few { length points.now ≤ MOST_POINTS }
    ensures { IfOk result (λ masks. AreMasks (length vertices.now) vertices.now normals.now points.now masks.items) }
{
    let rows = all_pairings(alloc, points, normals)?;
    let mut masks = Vec::with_capacity(alloc, vertices.len())?;
    for v in 0..vertices.len() {
        masks.push(mask_of(alloc, &vertices[v], normals, &rows)?)?;
    }
    Ok(masks)
}

/// The same points again.
fn copies(alloc: Global, points: &[Point]) -> Result<Vec<Point>, NoMemory>
    ensures { IfOk result (λ copies. copies.items ≡ points.now) }
{
    let mut copies = Vec::with_capacity(alloc, points.len())?;
    for p in points {
        copies.push(p.copied())?;
    }
    Ok(copies)
}

/// The lists with the masks of the vertices.
fn table_of(
    alloc: Global,
    vertices: &[Point],
    points: &[Point],
    normals: &[Point],
) -> Result<Table, NoMemory>
    requires { AreTableLists vertices.now normals.now points.now }
    ensures vertices { IfOk result (λ t. t.vertices.items ≡ vertices.now) }
    ensures points { IfOk result (λ t. t.points.items ≡ points.now) }
    ensures normals { IfOk result (λ t. t.normals.items ≡ normals.now) }
    ensures masks { IfOk result (λ t. AreMasks (length vertices.now) vertices.now normals.now points.now t.masks.items) }
{
    Ok(Table {
        vertices: copies(alloc, vertices)?,
        points: copies(alloc, points)?,
        normals: copies(alloc, normals)?,
        masks: masks_of(alloc, vertices, points, normals)?,
    })
}

impl Masks {
    /// The masks of a pair. `NoMemory` comes where there is no memory for them. Source: alg-geom/9509009, nef partitions.
    pub fn of(alloc: Global, pair: &DualPair) -> Result<Masks, NoMemory>
        ensures { IfOk result (λ masks. masks ≡ lists_of pair.now) }
    {
        let m = pair.m();
        let table = table_of(alloc, m.vertices(), m.points(), pair.n().vertices())?;
        Ok(Masks { table })
    }
}

#[cfg(test)]
mod tests;
