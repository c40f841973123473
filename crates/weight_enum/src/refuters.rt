//! Linear functions that refuted systems.
ghost use Rattle.std.specs.Prelude.{◌↔◌, ◌≤◌, ◌^◌, nat_abs, IsTrue};
ghost use Rattle.std.specs.List.{All};
ghost use Rattle.lattice_theory.specs.Vector.{HaveDimension};
ghost use Rattle.lattice_theory.specs.Size.{absolute_sum};
ghost use Rattle.interior_point_theory.specs.Certificates.{IsRefuter};
ghost use Rattle.weight_enum.specs.steps.Refuters.{IsSmallLinear, HasRefuter};

use lattice_core::{Functional, NoMemory, Point};
use std::alloc::Global;
use weight_certificates::is_refuter;

/// How many are kept.
const MOST_REFUTERS: usize = 16;

/// Linear functions that refuted systems. They refute most of the next ones, so that no facets are sought.
#[derive(Drop)]
pub(crate) struct Refuters {
    functions: Vec<Functional>,
}

/// Whether no entry is above 2^40 in size.
fn has_small_entries(normal: &[i64]) -> bool
    ensures { IsTrue result ↔ All (λ a. nat_abs a ≤ 2 ^ 40) normal.now }
{
    normal.iter().all(|a| a.unsigned_abs() <= 1_099_511_627_776)
}

/// Whether a function is linear, has this dimension, and is so small that its values at tails are worked out in 64 bits.
fn is_small(f: &Functional, n: usize) -> bool
    ensures { IsTrue result ↔ IsSmallLinear n f.now }
{
    f.constant() == 0 && f.dim() == n && has_small_entries(f.normal())
}

/// Whether a function is small enough to be tried, and refutes that the points are around the origin.
#[tactic(auto, using(crate::proofs::Refuting::small_narrow))]
pub(crate) fn refutes(f: &Functional, points: &[Point], n: usize) -> bool
    requires dimension { HaveDimension n points.now }
    requires small { All (λ y. absolute_sum y ≤ 8_192) points.now }
    ensures { IsTrue result → IsRefuter n points.now f.now.normal }
{
    is_small(f, n) && is_refuter(points, f)
}

impl Refuters {
    /// None yet.
    pub(crate) fn new(alloc: Global) -> Refuters {
        Refuters {
            functions: Vec::new(alloc),
        }
    }

    /// Whether one of them refutes that the points are around the origin. It is tried earlier the next time.
    pub(crate) fn refute(&mut self, points: &[Point], n: usize) -> bool
        requires dimension { HaveDimension n points.now }
        requires small { All (λ y. absolute_sum y ≤ 8_192) points.now }
        ensures { IsTrue result → HasRefuter n points.now }
    {
        for i in 0..self.functions.len() {
            if refutes(&self.functions[i], points, n) {
                self.functions.swap(i, i.saturating_sub(1));
                return true;
            }
        }
        false
    }

    /// Keeps a linear function, in the place of the eldest of those that have seldom refuted where there is no room.
    pub(crate) fn add(&mut self, linear: Functional) -> Result<(), NoMemory> {
        if self.functions.len() >= MOST_REFUTERS {
            self.functions.remove(MOST_REFUTERS / 2);
        }
        self.functions.push(linear)?;
        Ok(())
    }

    /// Keeps the normal of the first of the facets whose constant isn't positive: it refutes their points.
    pub(crate) fn keep(&mut self, facets: &[Functional]) -> Result<(), NoMemory> {
        for facet in facets {
            if facet.constant() <= 0 {
                return match Functional::new(facet.normal(), 0) {
                    Some(linear) => self.add(linear),
                    None => Ok(()),
                };
            }
        }
        Ok(())
    }
}
