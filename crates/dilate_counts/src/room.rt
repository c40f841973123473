//! The points of one dilate, which are walked through once and then visited as often as they are counted.
ghost use Rattle.std.specs.Prelude.{◌≡◌, ◌↔◌, ◌≤◌, length, IsTrue, IfOk, IfErr, IfSome, OnOk};
ghost use Rattle.lattice_theory.specs.Facet.{AreFacetsInAnyOrder};
ghost use Rattle.lattice_core.specs.Dimensions.{dimension_of};
ghost use Rattle.lattice_core.specs.PointLists.{AreSolidPoints};
ghost use Rattle.point_scan.specs.Visits.{VisitsDilate};
ghost use Rattle.point_scan.specs.declared.limits.TheConstants.{MOST_DILATE};
ghost use Rattle.dilate_counts.specs.KeptSteps.{IsRoomOf, ArePointsOf};

use crate::keeper::{Keeper, visit_all};
use lattice_core::{Functional, NoMemory, Point};
use point_scan::{Visitor, for_each_dilate};
use std::alloc::Global;
use std::marker::Model;

/// A room for the lattice points of one dilate: those of the last one are kept, where they are at most 262,144, and needn't be found again. What is
/// counted doesn't depend on it.
#[derive(Drop)]
pub struct DilateRoom {
    vertices: Vec<Point>,
    dilate: u32,
    whole: bool,
    points: Vec<Point>,
}

impl Model for DilateRoom {
    ghost use Rattle.dilate_counts.specs.KeptSteps.{HoldsPoints, RoomState};

    ghost Value = { RoomState };

    ghost view = { λ r. record { vertices = r.vertices.items; dilate = r.dilate } };

    ghost invariant = { λ r. HoldsPoints r.vertices.items r.dilate r.whole r.points.items };
}

/// Whether the two lists have the same points in the same order.
fn are_same(a: &[Point], b: &[Point]) -> bool
    ensures { IsTrue result ↔ (a.now ≡ b.now) }
{
    if a.len() != b.len() {
        return false;
    }
    for i in 0..a.len() {
        if !a[i].is_same(&b[i]) {
            return false;
        }
    }
    true
}

/// The same points again.
fn copies(alloc: Global, points: &[Point]) -> Result<Vec<Point>, NoMemory>
    ensures { IfOk result (λ copies. copies.items ≡ points.now) }
{
    let mut copies = Vec::new(alloc);
    copies.extend_with_clones(points)?;
    Ok(copies)
}

impl DilateRoom {
    /// A room in which nothing is kept. It takes no memory.
    pub fn new(alloc: Global) -> DilateRoom {
        DilateRoom {
            vertices: Vec::new(alloc),
            dilate: 0,
            whole: false,
            points: Vec::new(alloc),
        }
    }

    /// The room of a dilate, with its points, where these aren't too many.
    fn of(
        alloc: Global,
        vertices: &[Point],
        facets: &[Functional],
        dilate: u32,
    ) -> Result<DilateRoom, NoMemory>
        requires vertices { AreSolidPoints vertices.now }
        requires facets { AreFacetsInAnyOrder (dimension_of vertices.now) vertices.now facets.now }
        requires dilate { dilate ≤ MOST_DILATE }
        ensures { IfOk result (IsRoomOf vertices.now dilate) }
    {
        let mut keeper = Keeper {
            dim: vertices[0].dim(),
            points: Vec::new(alloc),
        };
        let whole = for_each_dilate(alloc, vertices, facets, dilate, &mut keeper)?;
        Ok(DilateRoom {
            vertices: copies(alloc, vertices)?,
            dilate,
            whole,
            points: keeper.into_points(),
        })
    }

    /// Whether it is the room of this dilate.
    fn is_of(&self, vertices: &[Point], dilate: u32) -> bool
        ensures { IsTrue result ↔ IsRoomOf vertices.now dilate self.now }
    {
        self.dilate == dilate && are_same(&self.vertices, vertices)
    }

    /// Makes it the room of this dilate, where it isn't yet.
    fn turn_to(
        &mut self,
        alloc: Global,
        vertices: &[Point],
        facets: &[Functional],
        dilate: u32,
    ) -> Result<(), NoMemory>
        requires vertices { AreSolidPoints vertices.now }
        requires facets { AreFacetsInAnyOrder (dimension_of vertices.now) vertices.now facets.now }
        requires dilate { dilate ≤ MOST_DILATE }
        ensures { OnOk result (IsRoomOf vertices.now dilate self.new) }
    {
        if self.is_of(vertices, dilate) {
            return Ok(());
        }
        *self = DilateRoom::of(alloc, vertices, facets, dilate)?;
        Ok(())
    }

    /// The points of its dilate, where they are kept.
    fn kept(&self) -> Option<&[Point]>
        ensures { IfSome result (λ points. ArePointsOf self.now.vertices self.now.dilate points.now) }
    {
        if self.whole { Some(&self.points) } else { None }
    }

    /// Lets the visitor take the lattice points of a dilate as `for_each_dilate` does, and keeps them.
    pub(crate) fn for_each<V: Visitor>(
        &mut self,
        alloc: Global,
        vertices: &[Point],
        facets: &[Functional],
        dilate: u32,
        visitor: &mut V,
    ) -> Result<bool, NoMemory>
        requires vertices { AreSolidPoints vertices.now }
        requires facets { AreFacetsInAnyOrder (dimension_of vertices.now) vertices.now facets.now }
        requires dilate { dilate ≤ MOST_DILATE }
        requires dimension { V.dimension visitor.old ≡ dimension_of vertices.now }
        ensures { IfOk result (λ all. VisitsDilate V.visits (dimension_of vertices.now) vertices.now dilate visitor.old all visitor.new) }
    {
        self.turn_to(alloc, vertices, facets, dilate)?;
        match self.kept() {
            Some(points) => Ok(visit_all(points, visitor)),
            None => for_each_dilate(alloc, vertices, facets, dilate, visitor),
        }
    }
}
