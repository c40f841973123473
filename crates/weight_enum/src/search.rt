//! The search through a range of degrees.
ghost use Rattle.std.specs.Prelude.{◌≡◌, ◌+◌, ◌≤◌, IfOk, OnOk, OnErr};
ghost use Rattle.lattice_core.specs.Weights.{weighted};
ghost use Rattle.weight_enum.specs.Searched.{GivesSystem};
ghost use Rattle.weight_enum.specs.Taken.{AreSearched};
ghost use Rattle.weight_enum.specs.steps.Places.{KeepsPlace, IsFilled};

use crate::degrees::{Found, systems_kept};
use lattice_core::{NoMemory, WeightSystem};
use std::alloc::Global;
use std::marker::Model;

/// The systems that were listed last.
#[derive(Drop)]
struct Listed {
    /// The degree whose systems are listed next.
    next: u32,
    /// The systems of the degree before it; none, where nothing was listed.
    systems: Vec<WeightSystem>,
    /// How many of them were given.
    place: usize,
}

/// A search for the interior-point systems of a range of degrees. Contracts see one less than the number of weights, the range, and how many
/// systems it has given.
#[derive(Drop)]
pub struct IpSearch {
    alloc: Global,
    dim: u32,
    low: u32,
    high: u32,
    given: u128,
    listed: Listed,
    found: Found,
}

impl Model for IpSearch {
    ghost use Rattle.weight_enum.specs.Searched.{Searched};
    ghost use Rattle.weight_enum.specs.steps.Places.{IsPlace};

    ghost Value = { Searched };

    ghost view = { λ s. record { dim = s.dim; low = s.low; high = s.high; given = s.given } };

    ghost invariant = { λ s. IsPlace s.dim s.low s.high s.given s.listed };
}

/// The same system again.
fn copied(alloc: Global, system: &WeightSystem) -> Result<WeightSystem, NoMemory>
    ensures { IfOk result (λ copy. weighted copy ≡ weighted system.now) }
{
    let weights = Vec::from_slice(alloc, &system.weights)?;
    Ok(WeightSystem {
        degree: system.degree,
        weights,
    })
}

/// Lists the systems of the next degrees, until one is left to give or no degree is left.
fn fill(
    alloc: Global,
    dim: u32,
    high: u32,
    listed: &mut Listed,
    found: &mut Found,
) -> Result<(), NoMemory>
    requires searched { AreSearched high (dim + 1) }
    ensures kept { KeepsPlace dim high listed.old listed.new }
    ensures filled { OnOk result (IsFilled high listed.new) }
{
    for degree in listed.next..high + 1 {
        if listed.place < listed.systems.len() {
            return Ok(());
        }
        listed.systems = systems_kept(alloc, dim as usize + 1, u64::from(degree), found)?;
        listed.place = 0;
        listed.next = degree + 1;
    }
    Ok(())
}

impl IpSearch {
    /// A search that has given nothing yet, through the systems with `dim` + 1 weights, 2 to 6, whose degree is from `low`, at least 1, to `high`,
    /// at most `MOST_DEGREE_OF_FIVE`, and at most `MOST_DEGREE_OF_SIX` for 6 weights. Source: math/0204356, weight systems.
    pub fn new(alloc: Global, dim: u32, low: u32, high: u32) -> Result<IpSearch, NoMemory>
        requires searched { AreSearched high (dim + 1) }
        requires least { 1 ≤ low }
        requires range { low ≤ high }
        ensures { IfOk result (λ s. s ≡ record { dim = dim; low = low; high = high; given = 0 }) }
    {
        let listed = Listed {
            next: low,
            systems: Vec::new(alloc),
            place: 0,
        };
        Ok(IpSearch {
            alloc,
            dim,
            low,
            high,
            given: 0,
            listed,
            found: Found::new(alloc),
        })
    }

    /// The next system, by degree and then by weights, each once. It is `None` exactly where each was given. Without memory for the systems of a
    /// degree it is `NoMemory`; then the same system comes next.
    pub fn next(&mut self) -> Result<Option<WeightSystem>, NoMemory>
        ensures gives { IfOk result (GivesSystem self.old self.new) }
        ensures unchanged { OnErr result (self.new ≡ self.old) }
    {
        fill(
            self.alloc,
            self.dim,
            self.high,
            &mut self.listed,
            &mut self.found,
        )?;
        match self.listed.systems.get(self.listed.place) {
            None => Ok(None),
            Some(system) => {
                let system = copied(self.alloc, system)?;
                self.listed.place += 1;
                self.given += 1;
                Ok(Some(system))
            }
        }
    }
}
