//! The lattice points, vertices and facets of points.

ghost use Rattle.std.specs.Prelude.{true, false, IsTrue, IfOk, MatchResult};
ghost use Rattle.lattice_core.specs.Dimensions.{dimension_of};
ghost use Rattle.lattice_core.specs.Stops.{Stops};
ghost use Rattle.lattice_core.specs.declared.limits.TheConstants.{MOST_POINTS};
ghost use Rattle.item_points.specs.Points.{AreItemPoints};
ghost use Rattle.palp_engine.specs.Reports.{IsRefused};
ghost use Rattle.palp_engine.specs.RunSteps.{CountsLatticePoints, AreAllAndFew, ArePassed, IsLattice, IsKept};

use hull::{Hull, hull_of};
use lattice_core::{Fault, Functional, LimitName, MOST_POINTS, NoMemory, Point, Refusal};
use point_scan::{count_to, scan};
use std::alloc::Global;

/// The lattice points of a hull.
#[derive(Drop)]
pub(crate) struct Lattice {
    /// How many there are.
    pub count: u64,
    /// All of them, where they are listed.
    pub points: Vec<Point>,
}

/// What is printed of points that aren't refused.
#[derive(Drop)]
pub(crate) struct Polytope {
    /// The number of lattice points.
    pub count: u64,
    /// All lattice points, where they are listed.
    pub lattice: Vec<Point>,
    /// The vertices.
    pub vertices: Vec<Point>,
    /// The facets.
    pub facets: Vec<Functional>,
}

/// The number of lattice points of the hull, or one more than the limit where there are more.
fn lattice_point_count(
    alloc: Global,
    points: &[Point],
    vertices: &[Point],
    facets: &[Functional],
) -> Result<u64, NoMemory>
    requires { ArePassed (dimension_of points.now) points.now facets.now vertices.now }
    ensures { IfOk result (CountsLatticePoints (dimension_of points.now) points.now MOST_POINTS) }
{
    count_to(alloc, vertices, facets, 1, MOST_POINTS as u64)
}

/// The number of lattice points of the hull, without a list of them.
fn counted(
    alloc: Global,
    points: &[Point],
    vertices: &[Point],
    facets: &[Functional],
) -> Result<Lattice, Fault>
    requires { ArePassed (dimension_of points.now) points.now facets.now vertices.now }
    ensures { MatchResult result
        (IsLattice (dimension_of points.now) points.now false)
        (Stops (IsRefused (dimension_of points.now) points.now)) }
{
    let most = MOST_POINTS as u64;
    let count = lattice_point_count(alloc, points, vertices, facets)?;
    if count > most {
        return Err(Fault::Refused(Refusal::Limit(LimitName::Points, u128::from(count))));
    }
    Ok(Lattice {
        count,
        points: Vec::new(alloc),
    })
}

/// All lattice points of the hull.
fn scanned(
    alloc: Global,
    points: &[Point],
    vertices: &[Point],
    facets: &[Functional],
) -> Result<Lattice, Fault>
    requires { ArePassed (dimension_of points.now) points.now facets.now vertices.now }
    ensures { MatchResult result
        (IsLattice (dimension_of points.now) points.now true)
        (Stops (IsRefused (dimension_of points.now) points.now)) }
{
    let lattice = scan(alloc, vertices, facets)?;
    Ok(Lattice {
        count: lattice.len() as u64,
        points: lattice,
    })
}

/// The lattice points of the hull of points; all of them where they are `listed`. Where the points are all lattice points, which `complete`
/// says, nothing is sought.
fn lattice_of(
    alloc: Global,
    points: Vec<Point>,
    complete: bool,
    listed: bool,
    vertices: &[Point],
    facets: &[Functional],
) -> Result<Lattice, Fault>
    requires complete { IsTrue complete → AreAllAndFew points.items }
    requires passed { ArePassed (dimension_of points.items) points.items facets.now vertices.now }
    ensures { MatchResult result
        (IsLattice (dimension_of points.items) points.items listed)
        (Stops (IsRefused (dimension_of points.items) points.items)) }
{
    if complete {
        return Ok(Lattice {
            count: points.len() as u64,
            points,
        });
    }
    if listed {
        return scanned(alloc, &points, vertices, facets);
    }
    counted(alloc, &points, vertices, facets)
}

/// The vertices and facets of an item's points, or their refusal.
fn corners_of(alloc: Global, points: &[Point]) -> Result<Hull, Fault>
    requires { AreItemPoints points.now }
    ensures { MatchResult result
        (λ hull. ArePassed (dimension_of points.now) points.now hull.facets.items hull.vertices.items)
        (Stops (IsRefused (dimension_of points.now) points.now)) }
{
    let hull = hull_of(alloc, points)?;
    Ok(hull)
}

/// The lattice points, vertices and facets of an item's points, or their refusal; the lattice points are kept where they are `listed`.
/// `complete` says that the points are all lattice points of their hull.
pub(crate) fn polytope_of(
    alloc: Global,
    points: Vec<Point>,
    complete: bool,
    listed: bool,
) -> Result<Polytope, Fault>
    requires points { AreItemPoints points.items }
    requires complete { IsTrue complete → AreAllAndFew points.items }
    ensures { MatchResult result
        (IsKept points.items listed)
        (Stops (IsRefused (dimension_of points.items) points.items)) }
{
    let corners = corners_of(alloc, &points)?;
    let lattice = lattice_of(
        alloc,
        points,
        complete,
        listed,
        &corners.vertices,
        &corners.facets,
    )?;
    Ok(Polytope {
        count: lattice.count,
        lattice: lattice.points,
        vertices: corners.vertices,
        facets: corners.facets,
    })
}
