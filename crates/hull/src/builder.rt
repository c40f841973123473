//! A hull that grows point by point.

ghost use Rattle.std.specs.Prelude.{◌≡◌, ◌⊎◌, ◌+◌, ◌<◌, ◌≤◌, ℤ, List, [], ◌∷◌, ◌++◌, length, Err, IfOk, OnOk, IfErr, OnErr};
ghost use Rattle.std.specs.List.{Contains};
ghost use Rattle.lattice_core.specs.Dimensions.{dimension_of};
ghost use Rattle.lattice_core.specs.Limits.{IsSized};
ghost use Rattle.lattice_core.specs.declared.faults.Fault.TheVariants as Fault;
ghost use Rattle.lattice_core.specs.PointLists.{ArePoints, AreSizedPoints, AreSolidPoints};
ghost use Rattle.lattice_core.specs.Stops.{Stops};
ghost use Rattle.hull.specs.Faults.{IsSizeRefusal, IsStartRefusal};
ghost use Rattle.hull_growth.specs.Grown.{HasFacets};

use crate::facets::{sized, solid, whole_hull};
use hull_growth::Growth;
use lattice_core::{Fault, Functional, NoMemory, Point};
use std::alloc::Global;
use std::marker::Model;

/// Points of 1 to 6 coordinates that aren't flat, at least one more than coordinates, and their facets, however many. Contracts see the two
/// lists. This project's own.
#[derive(Drop)]
pub struct HullBuilder {
    points: Vec<Point>,
    growth: Growth,
}

impl Model for HullBuilder {
    ghost use Rattle.hull.specs.Built.{Built, IsBuilt};

    ghost Value = { Built };

    ghost view = { λ b. record { points = b.points.items; facets = b.growth.facets } };

    ghost invariant = { λ b. IsBuilt b.points.items b.growth };
}

/// The same points again.
pub(crate) fn copied_points(alloc: Global, points: &[Point]) -> Result<Vec<Point>, NoMemory>
    ensures { IfOk result (λ copies. copies.items ≡ points.now) }
{
    let mut copies = Vec::new(alloc);
    for p in points {
        copies.push(p.copied())?;
    }
    Ok(copies)
}

/// Grows the hull of some of the points by the last one, where all are within the size limit.
fn grow_within(growth: &mut Growth, points: &[Point], p: &Point) -> Result<(), Fault>
    requires points { ArePoints points.now }
    requires dimension { dimension_of growth.old.corners ≡ dimension_of points.now }
    requires among { (c : List ℤ) → Contains growth.old.corners c → Contains points.now c }
    requires member { Contains points.now p.now }
    ensures sized { OnOk result (AreSizedPoints points.now) }
    ensures facets { OnOk result (HasFacets (dimension_of points.now) (growth.old.corners ++ (p.now ∷ [])) growth.new.facets) }
    ensures corners { OnOk result ((growth.new ≡ growth.old) ⊎ (growth.new.corners ≡ growth.old.corners ++ (p.now ∷ []))) }
    ensures unchanged { OnErr result (growth.new ≡ growth.old) }
    ensures refused { IfErr result (Stops (IsSizeRefusal (dimension_of points.now) points.now)) }
{
    sized(points)?;
    growth.grow(p)?;
    Ok(())
}

impl HullBuilder {
    /// The hull of the first points, of which there is one more than coordinates. Refused are points whose size is above the limit of their
    /// dimension (the size is told), and then flat ones (with their flat function); neither needs memory. Without memory for the points and
    /// facets it is `NoMemory`.
    pub fn start(alloc: Global, points: &[Point]) -> Result<HullBuilder, Fault>
        requires points { ArePoints points.now }
        requires count { length points.now ≡ dimension_of points.now + 1 }
        ensures points { IfOk result (λ b. b.points ≡ points.now) }
        ensures facets { IfOk result (λ b. HasFacets (dimension_of points.now) points.now b.facets) }
        ensures solid { OnOk result (AreSolidPoints points.now) }
        ensures refused { IfErr result (Stops (IsStartRefusal (dimension_of points.now) points.now)) }
        ensures no_memory { result ≡ Err Fault.NoMemory → AreSolidPoints points.now }
    {
        let width = solid(alloc, points)?;
        let (_corners, facets) = whole_hull(alloc, points, width)?;
        let growth = Growth::new(alloc, copied_points(alloc, points)?, facets)?;
        let points = copied_points(alloc, points)?;
        Ok(HullBuilder { points, growth })
    }

    /// Adds a point of the same dimension: afterwards the facets are those of all points so far. It is refused exactly where the size of all
    /// points with it is above the limit (the size is told). Without memory for the points and facets it is `NoMemory`. After any error the
    /// builder is as before.
    pub fn insert(&mut self, p: &Point) -> Result<(), Fault>
        requires { length p.now ≡ dimension_of self.old.points }
        ensures points { OnOk result (self.new.points ≡ self.old.points ++ (p.now ∷ [])) }
        ensures facets { OnOk result (HasFacets (dimension_of self.old.points) (self.old.points ++ (p.now ∷ [])) self.new.facets) }
        ensures within { OnOk result (IsSized (dimension_of self.old.points) (self.old.points ++ (p.now ∷ []))) }
        ensures unchanged { OnErr result (self.new ≡ self.old) }
        ensures refused { IfErr result (Stops (IsSizeRefusal (dimension_of self.old.points) (self.old.points ++ (p.now ∷ [])))) }
    {
        self.points.push(p.copied())?;
        let grown = grow_within(&mut self.growth, &self.points, p);
        if grown.is_err() {
            self.points.pop();
        }
        grown
    }

    /// The facets of all points so far, each once; their order is left open. The points aren't flat, and are within the size limit of their
    /// dimension.
    pub fn facets(&self) -> &[Functional]
        ensures value { result.now ≡ self.now.facets }
        ensures facets { HasFacets (dimension_of self.now.points) self.now.points result.now }
        ensures solid { AreSolidPoints self.now.points }
    {
        self.growth.facets()
    }
}
