//! Cones of nef partitions.
ghost use Rattle.std.specs.Prelude.{◌≡◌, ◌≤◌, length, IfOk};
ghost use Rattle.face_theory.specs.Pairings.{paired};
ghost use Rattle.incidence.specs.Incidences.{IsTold};
ghost use Rattle.cayley_theory.specs.Bases.{HaveParts, lifted_all};
ghost use Rattle.cayley.specs.PairCones.{IsPartition, IsConeOf};

use crate::tight::tight_table;
use crate::vectors::{functions_of, members_of};
use bit_pool::{Full, RowPool};
use dual_pair::{DualPair, Partition};
use incidence::Incidence;
use lattice_core::{Functional, NoMemory};
use std::alloc::Global;
use std::marker::Model;

/// The Cayley cone of a nef partition: the vectors that span it, its rays, are the points of the parts at the vertices, each with the unit vector of
/// its part behind it; its functions are the vertices of the dual, each with the unit vector of its part behind it, and the unit vectors of the
/// parts alone. Contracts see the dimension of the polytope, the number of parts, and both lists, each in lexicographic order. Source:
/// alg-geom/9509009.
#[derive(Drop)]
pub struct Cone {
    dim: usize,
    parts: usize,
    members: Vec<Functional>,
    functions: Vec<Functional>,
    tight: Vec<bool>,
}

impl Model for Cone {
    ghost use Rattle.std.specs.Prelude.{◌≡◌};
    ghost use Rattle.cayley.specs.PairCones.{ConeState};
    ghost use Rattle.cayley.specs.ConeSteps.{lifted_all, IsKeptCone};

    ghost Value = { ConeState };

    ghost view = { λ c. record {
      dim = c.dim;
      parts = c.parts;
      members = lifted_all c.parts c.members.items;
      functions = lifted_all c.parts c.functions.items;
    } };

    ghost invariant = { λ c. IsKeptCone c.dim c.parts c.members.items c.functions.items c.tight.items };
}

/// The same number in 32 bits, for one that is at most the pool's width, which is small.
fn narrowed(count: usize, pool: &RowPool) -> u32
    requires { count ≤ pool.now.width }
    ensures { result ≡ count }
{
    count.min(pool.width()) as u32
}

impl Cone {
    /// The cone of a nef partition of a pair. The part numbers are nef for the pair, and the points are, vertex by vertex and part by part, the places
    /// of the points of the parts. `NoMemory` comes where there is no memory for the lists. Source: alg-geom/9509009.
    pub fn of(alloc: Global, pair: &DualPair, partition: &Partition) -> Result<Cone, NoMemory>
        requires { IsPartition pair.now partition.now.part_of.items partition.now.points.items }
        ensures { IfOk result (IsConeOf pair.now partition.now.part_of.items) }
    {
        let parts = partition.points.len() / pair.m().vertices().len();
        let members = members_of(alloc, pair.m().points(), &partition.points, parts)?;
        let functions = functions_of(alloc, pair.n().vertices(), &partition.part_of, parts)?;
        let tight = tight_table(alloc, &members, &functions)?;
        Ok(Cone {
            dim: pair.m().dim(),
            parts,
            members,
            functions,
            tight,
        })
    }

    /// The dimension of the polytope.
    pub fn dim(&self) -> usize
        ensures { result ≡ self.now.dim }
    {
        self.dim
    }

    /// The number of parts.
    pub fn parts(&self) -> usize
        ensures { result ≡ self.now.parts }
    {
        self.parts
    }

    /// The vectors of the rays, in order, each as a function: its normal is the point, and its constant the part's negative.
    pub fn member_vectors(&self) -> &[Functional]
        ensures value { lifted_all self.now.parts result.now ≡ self.now.members }
        ensures parts { HaveParts self.now.dim self.now.parts result.now }
    {
        &self.members
    }

    /// The vectors of the functions, in order, each as a function in the same way.
    pub fn function_vectors(&self) -> &[Functional]
        ensures value { lifted_all self.now.parts result.now ≡ self.now.functions }
        ensures parts { HaveParts self.now.dim self.now.parts result.now }
    {
        &self.functions
    }

    /// The number of rays.
    pub fn rays(&self) -> usize
        ensures { result ≡ length self.now.members }
    {
        self.members.len()
    }

    /// The number of functions.
    pub fn functions(&self) -> usize
        ensures { result ≡ length self.now.functions }
    {
        self.functions.len()
    }

    /// The incidence of the rays, as its members, and the functions: both are tight where they pair to 0. The rows are added to the pool, which is at
    /// least as wide as there are rays, and functions. `Full` comes exactly where it hasn't room for a row of each; nothing is added then. It takes
    /// no memory.
    pub fn incidence(&self, pool: &mut RowPool) -> Result<Incidence, Full>
        requires rays { length self.now.members ≤ pool.old.width }
        requires functions { length self.now.functions ≤ pool.old.width }
        ensures { IsTold pool.old pool.new (paired self.now.members self.now.functions) result }
    {
        let members = narrowed(self.members.len(), pool);
        let functions = narrowed(self.functions.len(), pool);
        Incidence::from_table(members, functions, &self.tight, pool)
    }
}
