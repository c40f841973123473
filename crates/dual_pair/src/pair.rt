//! Reflexive polytopes with their duals.
ghost use Rattle.std.specs.Prelude.{◌≡◌, ◌≤◌, length, pos, IfOk, IfErr};
ghost use Rattle.lattice_theory.specs.Facet.{AreFacetsInAnyOrder};
ghost use Rattle.lattice_theory.specs.Points.{AreLatticePoints};
ghost use Rattle.lattice_core.specs.Dimensions.{dimension_of};
ghost use Rattle.lattice_core.specs.PointLists.{AreSolidPoints};
ghost use Rattle.lattice_core.specs.declared.limits.TheConstants.{MOST_POINTS};
ghost use Rattle.lattice_core.specs.Stops.{Stops};
ghost use Rattle.duality_theory.specs.Reflexive.{normals_of};
ghost use Rattle.duality_theory.specs.Lists.{with_ones};
ghost use Rattle.dual_pair.specs.Pairs.{IsReflexivePolytope, IsDualOf, IsPair, exchanged, HasNoDual};
ghost use Rattle.dual_pair.specs.PairSteps.{IsDualScanRefusal};
ghost use Rattle.dual_pair.specs.Kinds.{IsKindOf};

use crate::Polytope;
use lattice_core::{
    Fault, Functional, LimitName, MOST_POINTS, NoMemory, Point, Refusal, size_limit, size_of,
};
use point_scan::scan;
use std::alloc::Global;
use std::marker::Model;

/// A reflexive polytope, side M, and its dual, side N: the vertices of the dual are the normals of the polytope's facets, its facets are the
/// functions `v·x + 1` of the polytope's vertices v, and its points the integer vectors that pair to at least -1 with each of these. Contracts
/// see both sides. Source: alg-geom/9310003.
#[derive(Drop)]
pub struct DualPair {
    m: Polytope,
    n: Polytope,
}

impl Model for DualPair {
    ghost use Rattle.dual_pair.specs.Pairs.{PairState, IsPair};

    ghost Value = { PairState };

    ghost view = { λ p. record { m = p.m; n = p.n } };

    ghost invariant = { λ p. IsPair (record { m = p.m; n = p.n }) };
}

/// What a polytope is: reflexive, with its dual, or not.
#[derive(Drop)]
pub enum Kind {
    /// It is reflexive.
    Reflexive(DualPair),
    /// Some facet's constant isn't 1.
    Other(Polytope),
}

/// The normals of functions, in order.
fn normals(alloc: Global, functions: &[Functional]) -> Result<Vec<Point>, NoMemory>
    ensures { IfOk result (λ points. points.items ≡ normals_of functions.now) }
{
    let mut points = Vec::new(alloc);
    for f in functions {
        points.push(normal_of(f))?;
    }
    Ok(points)
}

/// The normal of a function.
fn normal_of(f: &Functional) -> Point
    ensures { result ≡ f.now.normal }
{
    match Point::new(f.normal()) {
        Some(point) => point,
        None => unreachable!(),
    }
}

/// The functions whose normals are points, in order, and whose constants are 1.
fn functions(alloc: Global, points: &[Point]) -> Result<Vec<Functional>, NoMemory>
    ensures { IfOk result (λ functions. functions.items ≡ with_ones points.now) }
{
    let mut functions = Vec::new(alloc);
    for p in points {
        functions.push(with_one(p))?;
    }
    Ok(functions)
}

/// The function whose normal is a point, and whose constant is 1.
fn with_one(p: &Point) -> Functional
    ensures normal { result.normal ≡ p.now }
    ensures constant { result.constant ≡ pos 1 }
{
    match Functional::new(p.entries(), 1) {
        Some(function) => function,
        None => unreachable!(),
    }
}

/// The lattice points of a dual, whose limit has a name of its own.
fn dual_points(
    alloc: Global,
    vertices: &[Point],
    facets: &[Functional],
) -> Result<Vec<Point>, Fault>
    requires vertices { AreSolidPoints vertices.now }
    requires facets { AreFacetsInAnyOrder (dimension_of vertices.now) vertices.now facets.now }
    ensures points { IfOk result (λ points. AreLatticePoints (dimension_of vertices.now) vertices.now points.items) }
    ensures few { IfOk result (λ points. length points.items ≤ MOST_POINTS) }
    ensures refused { IfErr result (Stops (IsDualScanRefusal (dimension_of vertices.now) vertices.now)) }
{
    match scan(alloc, vertices, facets) {
        Ok(points) => Ok(points),
        Err(Fault::NoMemory) => Err(Fault::NoMemory),
        Err(Fault::Refused(_)) => {
            let told = MOST_POINTS as u128 + 1;
            Err(Fault::Refused(Refusal::Limit(LimitName::DualPoints, told)))
        }
    }
}

/// The dual of a reflexive polytope.
fn dual_of(alloc: Global, p: &Polytope) -> Result<Polytope, Fault>
    requires { IsReflexivePolytope p.now }
    ensures dual { IfOk result (IsDualOf p.now) }
    ensures refused { IfErr result (Stops (HasNoDual p.now)) }
{
    let dim = p.dim();
    let vertices = normals(alloc, p.facets())?;
    let size = size_of(dim, &vertices);
    if size > size_limit(dim) as u128 {
        return Err(Fault::Refused(Refusal::Limit(LimitName::DualSize, size)));
    }
    let facets = functions(alloc, p.vertices())?;
    let points = dual_points(alloc, &vertices, &facets)?;
    Ok(Polytope {
        dim,
        vertices,
        facets,
        points,
    })
}

impl DualPair {
    /// The pair of a reflexive polytope, or the polytope itself where the constant of some facet isn't 1. A reflexive polytope is refused where
    /// the size of the dual's vertices is above the limit of their dimension (the size is told), and then where the dual has more than 16,384
    /// lattice points (16,385 is told); it is given up then. The dual's hull isn't sought: its vertices and facets are known. `NoMemory` comes
    /// where there is no memory for the dual's lists. Source: alg-geom/9310003.
    pub fn of(alloc: Global, p: Polytope) -> Result<Kind, Fault>
        ensures kind { IfOk result (IsKindOf p) }
        ensures refused { IfErr result (Stops (HasNoDual p)) }
    {
        if !p.is_reflexive() {
            return Ok(Kind::Other(p));
        }
        let n = dual_of(alloc, &p)?;
        Ok(Kind::Reflexive(DualPair { m: p, n }))
    }

    /// The polytope.
    pub fn m(&self) -> &Polytope
        ensures value { result.now ≡ self.now.m }
        ensures pair { IsPair self.now }
    {
        &self.m
    }

    /// Its dual.
    pub fn n(&self) -> &Polytope
        ensures value { result.now ≡ self.now.n }
        ensures pair { IsPair self.now }
    {
        &self.n
    }

    /// The pair with its sides exchanged: the dual of the dual is the polytope.
    pub fn swap(self) -> DualPair
        ensures { result ≡ exchanged self }
    {
        DualPair {
            m: self.n,
            n: self.m,
        }
    }
}

#[cfg(test)]
mod tests;
