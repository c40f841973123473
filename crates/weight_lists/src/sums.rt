//! The summary of the polytopes of a range.
ghost use Rattle.std.specs.Prelude.{MatchResult};
ghost use Rattle.lattice_core.specs.Stops.{Stops};
ghost use Rattle.lattice_core.specs.Weights.{weighted};
ghost use Rattle.interior_point_theory.specs.Interior.{IsInteriorPointSystem};
ghost use Rattle.palp_print.specs.Lists.{sweep_line};
ghost use Rattle.weight_lists.specs.Sweeps.{IsSweepRefused, SweepSays};
ghost use Rattle.weight_lists.specs.Answers.{IsRange, Reports};
ghost use Rattle.weight_lists.specs.Steps.{LineMeans, HasNumbers};

use crate::ListFault;
use crate::listing::stopped;
use crate::printing::give;
use crate::systems::kind_of;
use dual_pair::Kind;
use lattice_core::{Fault, WeightSystem};
use palp_io::Sink;
use palp_print::Page;
use palp_words::SweepWords;
use std::alloc::Global;
use weight_enum::IpSearch;

/// What is summed of a system's polytope.
#[derive(Clone, Copy)]
pub(crate) struct Numbers {
    /// 1 where it is reflexive, otherwise 0.
    pub reflexive: u64,
    /// Its lattice points.
    pub points: u64,
    /// The lattice points of its dual; 0 where it isn't reflexive.
    pub dual_points: u64,
}

/// The numbers of an interior-point weight system, or its refusal.
fn numbers_of(alloc: Global, system: &WeightSystem) -> Result<Numbers, Fault>
    requires { IsInteriorPointSystem (weighted system.now) }
    ensures { MatchResult result (HasNumbers (weighted system.now)) (Stops (IsSweepRefused (weighted system.now))) }
{
    match kind_of(alloc, system)? {
        Kind::Reflexive(pair) => Ok(Numbers {
            reflexive: 1,
            points: pair.m().points().len() as u64,
            dual_points: pair.n().points().len() as u64,
        }),
        Kind::Other(polytope) => Ok(Numbers {
            reflexive: 0,
            points: polytope.points().len() as u64,
            dual_points: 0,
        }),
    }
}

/// Gives the line of a whole list.
fn close<O: Sink>(
    alloc: Global,
    systems: u64,
    reflexive: u64,
    points: u128,
    dual_points: u128,
    out: &mut O,
) -> Result<(), ListFault>
    ensures { LineMeans (sweep_line systems reflexive points dual_points) (O.state out.old) (O.state out.new) result }
{
    let mut page = Page::new(alloc)?;
    page.sweep_line(systems, reflexive, points, dual_points)?;
    give(&page, out)
}

/// Gives the report of `sweep` to `out`, one line: the number of interior-point weight systems of the range, how many of them have a reflexive
/// polytope, the sum of the numbers of lattice points of all their polytopes, and that of the duals of the reflexive ones. The systems have
/// `dim` + 1 weights, 2 to 6, and a degree from `low`, at least 1, to `high`, at most 4,095, and at most 250 for 6 weights.
///
/// `Refused` comes with the first system whose weight line has no points within the limits, or whose points are flat or have too many facets or
/// vertices, or whose dual's vertices are too large or its lattice points too many. `Write` comes only where the count of faults of `out`
/// rose in this call, and `NoMemory` where there was no memory; both leave a front of the line. One system is in memory at a time.
pub fn sum_up<O: Sink>(alloc: Global, words: &SweepWords, out: &mut O) -> Result<(), ListFault>
    requires { IsRange words.now.dim words.now.low words.now.high }
    ensures { Reports SweepSays words.now.dim words.now.low words.now.high (O.state out.old) (O.state out.new) result }
{
    let mut search = IpSearch::new(alloc, words.dim, words.low, words.high)?;
    let mut systems = 0;
    let mut reflexive = 0;
    let mut points = 0;
    let mut dual_points = 0;
    loop {
        let Some(system) = search.next()? else {
            return close(alloc, systems, reflexive, points, dual_points, out);
        };
        systems += 1;
        let numbers = match numbers_of(alloc, &system) {
            Ok(numbers) => numbers,
            Err(fault) => return Err(stopped(systems, fault)),
        };
        reflexive += numbers.reflexive;
        points += u128::from(numbers.points);
        dual_points += u128::from(numbers.dual_points);
    }
}
