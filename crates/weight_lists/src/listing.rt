//! The list of the systems of a range.
ghost use Rattle.std.specs.Prelude.{◌≡◌, MatchResult};
ghost use Rattle.lattice_core.specs.Stops.{Stops};
ghost use Rattle.lattice_core.specs.Weights.{weighted};
ghost use Rattle.interior_point_theory.specs.Interior.{IsInteriorPointSystem};
ghost use Rattle.palp_print.specs.Lists.{closing};
ghost use Rattle.weight_lists.specs.Lists.{IsRefused, CwsSays, title_of as title_that_counts};
ghost use Rattle.weight_lists.specs.Answers.{IsRange, Reports};
ghost use Rattle.weight_lists.specs.Steps.{IsChosen, IsStopped, LineMeans, SystemMeans};

use crate::ListFault;
use crate::printing::give;
use crate::systems::polytope_of;
use lattice_core::{Fault, WeightSystem};
use palp_io::Sink;
use palp_print::{CountTitle, Page};
use palp_words::CwsWords;
use std::alloc::Global;
use weight_enum::IpSearch;

/// Whether a system is listed, where with `only` those with a reflexive polytope are, or its refusal.
fn is_listed(alloc: Global, only: bool, system: &WeightSystem) -> Result<bool, Fault>
    requires { IsInteriorPointSystem (weighted system.now) }
    ensures { MatchResult result (IsChosen only (weighted system.now)) (Stops (IsRefused only (weighted system.now))) }
{
    if !only {
        return Ok(true);
    }
    let polytope = polytope_of(alloc, system)?;
    Ok(polytope.is_reflexive())
}

/// The fault of a system with this number.
pub(crate) fn stopped(number: u64, fault: Fault) -> ListFault
    ensures { IsStopped number fault result }
{
    match fault {
        Fault::Refused(cause) => ListFault::Refused(number, cause),
        Fault::NoMemory => ListFault::NoMemory,
    }
}

/// Gives the line of a system with this number, where it is listed. The answer is 1 where it is, and otherwise 0.
fn list_system<O: Sink>(
    alloc: Global,
    only: bool,
    page: &mut Page,
    number: u64,
    system: &WeightSystem,
    out: &mut O,
) -> Result<u64, ListFault>
    requires { IsInteriorPointSystem (weighted system.now) }
    ensures { SystemMeans only number (weighted system.now) (O.state out.old) (O.state out.new) result }
{
    match is_listed(alloc, only, system) {
        Ok(true) => {}
        Ok(false) => return Ok(0),
        Err(fault) => return Err(stopped(number, fault)),
    }
    page.clear();
    page.weights(system)?;
    give(page, out)?;
    Ok(1)
}

/// What the closing line counts.
fn title_of(only: bool) -> CountTitle
    ensures { result ≡ title_that_counts only }
{
    if only {
        CountTitle::Ref
    } else {
        CountTitle::Ip
    }
}

/// Gives the closing line.
fn close<O: Sink>(page: &mut Page, only: bool, count: u64, out: &mut O) -> Result<(), ListFault>
    ensures { LineMeans (closing (title_that_counts only) count) (O.state out.old) (O.state out.new) result }
{
    page.clear();
    page.closing(title_of(only), count)?;
    give(page, out)
}

/// Gives the report of `cws` to `out`: one line for each interior-point weight system of the range, by degree and then by weights, or with
/// `reflexive_only` for each of those whose polytope is reflexive; and then the line that tells their number. Each line is one give. The systems
/// have `dim` + 1 weights, 2 to 6, and a degree from `low`, at least 1, to `high`, at most 4,095, and at most 250 for 6 weights.
///
/// `Refused` comes only with `reflexive_only`, with the first system whose polytope can't be told, where its weight line has no points within the
/// limits, or these are flat or have too many facets or vertices; the lines before it were given. `Write` comes only where the count of
/// faults of `out` rose in this call, and `NoMemory` where there was no memory; both leave a front of the report. Source of the systems:
/// math/0204356; the lines are this project's own.
pub fn list_systems<O: Sink>(alloc: Global, words: &CwsWords, out: &mut O) -> Result<(), ListFault>
    requires { IsRange words.now.dim words.now.low words.now.high }
    ensures { Reports (CwsSays words.now.reflexive_only) words.now.dim words.now.low words.now.high (O.state out.old) (O.state out.new) result }
{
    let mut search = IpSearch::new(alloc, words.dim, words.low, words.high)?;
    let mut page = Page::new(alloc)?;
    let mut number = 0;
    let mut listed = 0;
    loop {
        let Some(system) = search.next()? else {
            return close(&mut page, words.reflexive_only, listed, out);
        };
        number += 1;
        listed += list_system(alloc, words.reflexive_only, &mut page, number, &system, out)?;
    }
}
