//! Polytopes, and how they are made of points.
ghost use Rattle.std.specs.Prelude.{◌≡◌, ◌↔◌, ◌≤◌, pos, length, IsTrue, IfOk, IfErr};
ghost use Rattle.std.specs.List.{All};
ghost use Rattle.lattice_theory.specs.Points.{AreLatticePoints};
ghost use Rattle.duality_theory.specs.Reflexive.{IsReflexive};
ghost use Rattle.lattice_core.specs.Dimensions.{dimension_of};
ghost use Rattle.lattice_core.specs.PointLists.{ArePoints};
ghost use Rattle.lattice_core.specs.Stops.{Stops};
ghost use Rattle.lattice_core.specs.declared.limits.TheConstants.{MOST_COORDINATES};
ghost use Rattle.dual_pair.specs.Polytopes.{IsPolytope, IsPolytopeOf, HasNoPolytope};

use hull::{Hull, hull_of};
use lattice_core::{Fault, Functional, LimitName, MOST_POINTS, Point, Refusal};
use point_scan::scan;
use std::alloc::Global;
use std::marker::Model;

/// A polytope: its vertices, its facets and its lattice points. Contracts see the three lists, and that they are those of the vertices: they
/// aren't flat, are within the size limit, at most 128, have at most 128 facets and at most 16,384 lattice points. Source: math/0204356,
/// section 2.
#[derive(Drop)]
pub struct Polytope {
    pub(crate) dim: usize,
    pub(crate) vertices: Vec<Point>,
    pub(crate) facets: Vec<Functional>,
    pub(crate) points: Vec<Point>,
}

impl Model for Polytope {
    ghost use Rattle.std.specs.Prelude.{◌≡◌};
    ghost use Rattle.lattice_core.specs.Dimensions.{dimension_of};
    ghost use Rattle.dual_pair.specs.Polytopes.{PolytopeState, IsPolytope};

    ghost Value = { PolytopeState };

    ghost view = { λ p. record { vertices = p.vertices.items; facets = p.facets.items; points = p.points.items } };

    ghost invariant = { λ p. (p.dim ≡ dimension_of p.vertices.items)
        × IsPolytope (record { vertices = p.vertices.items; facets = p.facets.items; points = p.points.items }) };
}

/// The number of coordinates of points.
fn dimension(points: &[Point]) -> usize
    requires { ArePoints points.now }
    ensures value { result ≡ dimension_of points.now }
    ensures least { 1 ≤ result }
    ensures most { result ≤ MOST_COORDINATES }
{
    points[0].dim()
}

/// Whether the function's constant is 1.
fn is_one(f: &Functional) -> bool
    ensures { IsTrue result ↔ (f.now.constant ≡ pos 1) }
{
    f.constant() == 1
}

/// Whether the constants of all functions are 1.
fn are_ones(functions: &[Functional]) -> bool
    ensures { IsTrue result ↔ All (λ f. f.constant ≡ pos 1) functions.now }
{
    functions.iter().all(is_one)
}

impl Polytope {
    /// The polytope of points. There is at least one point, all of one dimension; points may repeat. Refused are, in this order, points whose
    /// size is above the limit of their dimension (the size is told), flat points (with their flat function), points with more than 128 facets,
    /// with more than 128 vertices (their number is told), and with more than 16,384 lattice points (16,385 is told). `NoMemory` comes where
    /// there is no memory for the lists. Source: math/0204356, section 2.
    pub fn of(alloc: Global, points: &[Point]) -> Result<Polytope, Fault>
        requires { ArePoints points.now }
        ensures polytope { IfOk result (IsPolytopeOf points.now) }
        ensures refused { IfErr result (Stops (HasNoPolytope points.now)) }
    {
        let dim = dimension(points);
        let Hull { facets, vertices } = hull_of(alloc, points)?;
        let points = scan(alloc, &vertices, &facets)?;
        Ok(Polytope {
            dim,
            vertices,
            facets,
            points,
        })
    }

    /// The same of points that are all lattice points of their hull, in lexicographic order, as those of a weight line are. They aren't sought a
    /// second time.
    pub fn of_lattice_points(alloc: Global, points: Vec<Point>) -> Result<Polytope, Fault>
        requires points { ArePoints points.items }
        requires all { AreLatticePoints (dimension_of points.items) points.items points.items }
        ensures polytope { IfOk result (IsPolytopeOf points.items) }
        ensures refused { IfErr result (Stops (HasNoPolytope points.items)) }
    {
        let dim = dimension(&points);
        let Hull { facets, vertices } = hull_of(alloc, &points)?;
        if points.len() > MOST_POINTS {
            let told = MOST_POINTS as u128 + 1;
            return Err(Fault::Refused(Refusal::Limit(LimitName::Points, told)));
        }
        Ok(Polytope {
            dim,
            vertices,
            facets,
            points,
        })
    }

    /// The polytope with these vertices, facets and lattice points, which are those of its vertices, in order. Nothing is sought.
    pub fn of_lists(vertices: Vec<Point>, facets: Vec<Functional>, points: Vec<Point>) -> Polytope
        requires { IsPolytope (record { vertices = vertices.items; facets = facets.items; points = points.items }) }
        ensures { result ≡ record { vertices = vertices.items; facets = facets.items; points = points.items } }
    {
        let dim = dimension(&vertices);
        Polytope {
            dim,
            vertices,
            facets,
            points,
        }
    }

    /// The number of coordinates, 1 to 6.
    pub fn dim(&self) -> usize
        ensures value { result ≡ dimension_of self.now.vertices }
        ensures least { 1 ≤ result }
        ensures most { result ≤ MOST_COORDINATES }
        ensures polytope { IsPolytope self.now }
    {
        self.dim
    }

    /// The vertices, each once, in lexicographic order.
    pub fn vertices(&self) -> &[Point]
        ensures value { result.now ≡ self.now.vertices }
        ensures polytope { IsPolytope self.now }
    {
        &self.vertices
    }

    /// The facets, each once, ordered by normal and then by constant.
    pub fn facets(&self) -> &[Functional]
        ensures value { result.now ≡ self.now.facets }
        ensures polytope { IsPolytope self.now }
    {
        &self.facets
    }

    /// The lattice points, each once, in lexicographic order.
    pub fn points(&self) -> &[Point]
        ensures value { result.now ≡ self.now.points }
        ensures polytope { IsPolytope self.now }
    {
        &self.points
    }

    /// Whether each facet's constant is 1. Source: alg-geom/9310003.
    pub fn is_reflexive(&self) -> bool
        ensures { IsTrue result ↔ IsReflexive (dimension_of self.now.vertices) self.now.vertices }
    {
        are_ones(&self.facets)
    }
}
