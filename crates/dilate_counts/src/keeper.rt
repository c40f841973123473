//! Points that are kept, and visited again.
ghost use Rattle.std.specs.Prelude.{◌≡◌};
ghost use Rattle.point_scan.specs.Visits.{Visits};
ghost use Rattle.dilate_counts.specs.KeptSteps.{AreFit};

use crate::limits::MOST_KEPT;
use lattice_core::Point;
use point_scan::Visitor;
use std::marker::Model;

/// Keeps points of a dimension, as long as there is room for them.
#[derive(Drop)]
pub(crate) struct Keeper {
    pub(crate) dim: usize,
    pub(crate) points: Vec<Point>,
}

impl Model for Keeper {
    ghost use Rattle.dilate_counts.specs.KeptSteps.{AreFit, KeeperState};

    ghost Value = { KeeperState };

    ghost view = { λ k. record { dim = k.dim; points = k.points.items } };

    ghost invariant = { λ k. AreFit k.dim k.points.items };
}

impl Visitor for Keeper {
    ghost use Rattle.dilate_counts.specs.KeptSteps.{IsKept};

    ghost dimension = { λ k. k.dim };

    ghost visits = { IsKept };

    fn visit(&mut self, x: &Point) -> bool {
        if self.points.len() == MOST_KEPT {
            return false;
        }
        match self.points.push(x.copied()) {
            Ok(()) => true,
            Err(_) => false,
        }
    }
}

impl Keeper {
    /// The points that were kept.
    pub(crate) fn into_points(self) -> Vec<Point>
        ensures points { result.items ≡ self.points }
        ensures fit { AreFit self.dim result.items }
    {
        self.points
    }
}

/// Lets the visitor take the points in order, until it answers `false`, and answers whether it never did.
pub(crate) fn visit_all<V: Visitor>(points: &[Point], visitor: &mut V) -> bool
    requires { AreFit (V.dimension visitor.old) points.now }
    ensures dimension { V.dimension visitor.new ≡ V.dimension visitor.old }
    ensures visits { Visits V.visits visitor.old points.now result visitor.new }
{
    for point in points {
        if !visitor.visit(point) {
            return false;
        }
    }
    true
}
