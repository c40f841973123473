//! The walk through the exponent vectors, and their number.

ghost use Rattle.std.specs.Prelude.{◌≡◌, ◌≤◌, List, [], length, map, replicate, pos, IfOk};
ghost use Rattle.std.specs.List.{All};
ghost use Rattle.lattice_theory.specs.Grid.{Follows};
ghost use Rattle.lattice_core.specs.Weights.{weighted_all, columns_of, IsMonomial, AreWellFormed, AreWithinLimits};
ghost use Rattle.lattice_core.specs.declared.limits.TheConstants.{MOST_DEGREE};
ghost use Rattle.weight_points.specs.declared.monomials.TheConstants.{MOST_COUNT};
ghost use Rattle.weight_points.specs.Members.{GivesNext, CountsMonomials};
ghost use Rattle.weight_points.specs.steps.Rows.{systems_of, AreRows};

use crate::rows::{Row, rows_of};
use crate::search::advance;
use lattice_core::{NoMemory, WeightSystem};
use std::alloc::Global;
use std::marker::Model;

/// The largest limit that a count of exponent vectors may be given: 2^40.
pub const MOST_COUNT: u64 = 1_099_511_627_776;

/// A walk through the exponent vectors of weight systems, in lexicographic order. Contracts see the systems, and how many vectors it has
/// given.
#[derive(Drop)]
pub struct Monomials {
    rows: Vec<Row>,
    entries: Vec<u64>,
    finished: bool,
}

impl Model for Monomials {
    ghost use Rattle.std.specs.Prelude.{map, pos};
    ghost use Rattle.weight_points.specs.Members.{Walked};
    ghost use Rattle.weight_points.specs.steps.Rows.{systems_of, AreRows};
    ghost use Rattle.weight_points.specs.Listing.{given_of};

    ghost Value = { Walked };

    ghost view = { λ m. record { systems = systems_of m.rows.items; given = given_of (systems_of m.rows.items) (map pos m.entries.items) m.finished } };

    ghost invariant = { λ m. AreRows m.rows.items m.entries.items };
}

/// The number of weights of the first system.
fn columns(systems: &[WeightSystem]) -> usize
    ensures { result ≡ columns_of (weighted_all systems.now) }
{
    match systems.first() {
        Some(system) => system.weights.len(),
        None => 0,
    }
}

/// A zero for each weight of the first system.
fn zeros(alloc: Global, systems: &[WeightSystem]) -> Result<Vec<u64>, NoMemory>
    ensures { IfOk result (λ zeros. zeros.items ≡ replicate (columns_of (weighted_all systems.now)) 0) }
{
    let mut zeros = Vec::new(alloc);
    for _ in 0..columns(systems) {
        zeros.push(0)?;
    }
    Ok(zeros)
}

/// Writes exponents as integers.
fn write(exponents: &[u64], out: &mut [i64])
    requires columns { length out.old ≡ length exponents.now }
    requires small { All (λ e. e ≤ MOST_DEGREE) exponents.now }
    ensures { out.new ≡ map pos exponents.now }
{
    for (i, exponent) in exponents.iter().enumerate() {
        out[i] = *exponent as i64;
    }
}

/// Moves to the next vector of exponents that takes all degrees, and answers whether there is one. Where there is none, the place is lost.
fn step(rows: &mut Vec<Row>, entries: &mut Vec<u64>) -> bool
    requires { AreRows rows.old.items entries.old.items }
    ensures systems { systems_of rows.new.items ≡ systems_of rows.old.items }
    ensures ready { AreRows rows.new.items entries.new.items }
    ensures follows { Follows (IsMonomial (systems_of rows.old.items)) (map pos entries.old.items) (map pos entries.new.items) result }
{
    advance(rows.as_mut_slice(), entries.as_mut_slice())
}

impl Monomials {
    /// A walk that has given nothing yet. The systems are well formed and within the limits; it keeps a copy of them. Source:
    /// math/0204356, weight systems.
    pub fn new(alloc: Global, systems: &[WeightSystem]) -> Result<Monomials, NoMemory>
        requires formed { AreWellFormed (weighted_all systems.now) }
        requires limits { AreWithinLimits (weighted_all systems.now) }
        ensures systems { IfOk result (λ m. m.systems ≡ weighted_all systems.now) }
        ensures given { IfOk result (λ m. m.given ≡ 0) }
    {
        let rows = rows_of(alloc, systems)?;
        let entries = zeros(alloc, systems)?;
        Ok(Monomials {
            rows,
            entries,
            finished: false,
        })
    }

    /// Writes the next exponent vector in lexicographic order over `out`, which has as many entries as a system has weights, and answers
    /// true. It answers false exactly where all were given; then `out` and the walk are unchanged. It takes no memory.
    pub fn next_into(&mut self, out: &mut [i64]) -> bool
        requires { length out.old ≡ columns_of self.old.systems }
        ensures { GivesNext self.old self.new out.old out.new result }
    {
        if self.finished {
            return false;
        }
        if !step(&mut self.rows, &mut self.entries) {
            self.finished = true;
            return false;
        }
        write(self.entries.as_slice(), out);
        true
    }
}

/// The number of exponent vectors of weight systems, or `limit` + 1 where there are more than `limit`, which is at most 2^40. The systems
/// are well formed and within the limits. Source: math/0204356, weight systems.
pub fn count_to(alloc: Global, systems: &[WeightSystem], limit: u64) -> Result<u64, NoMemory>
    requires formed { AreWellFormed (weighted_all systems.now) }
    requires limits { AreWithinLimits (weighted_all systems.now) }
    requires limit { limit ≤ MOST_COUNT }
    ensures { IfOk result (CountsMonomials (weighted_all systems.now) limit) }
{
    let mut rows = rows_of(alloc, systems)?;
    let mut entries = zeros(alloc, systems)?;
    for count in 0..limit + 1 {
        if !step(&mut rows, &mut entries) {
            return Ok(count);
        }
    }
    Ok(limit + 1)
}

#[cfg(test)]
mod tests;
