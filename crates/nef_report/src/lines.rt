//! The lines of a report, given to a sink one by one.
ghost use Rattle.palp_input.specs.Grammar.{listed};
ghost use Rattle.palp_print.specs.Lists.{closing};
ghost use Rattle.palp_print.specs.declared.titles.CountTitle.TheVariants as CountTitle;
ghost use Rattle.nef_report.specs.Partitions.{body_text, heading_text};
ghost use Rattle.nef_report.specs.Answers.{LineMeans};

use crate::NefFault;
use dual_pair::{DualPair, Polytope};
use palp_input::Item;
use palp_io::{Gave, Sink};
use palp_print::{CountTitle, Page};

/// Gives what stands on a page.
pub(crate) fn give<O: Sink>(page: &Page, out: &mut O) -> Result<(), NefFault>
    ensures { LineMeans page.now (O.state out.old) (O.state out.new) result }
{
    match out.give(page.bytes()) {
        Gave::All => Ok(()),
        Gave::Failed => Err(NefFault::Write),
    }
}

/// Gives the line of an item whose polytope isn't reflexive.
pub(crate) fn give_body<O: Sink>(
    page: &mut Page,
    item: &Item,
    polytope: &Polytope,
    out: &mut O,
) -> Result<(), NefFault>
    ensures { LineMeans (body_text (listed item.now) polytope.now) (O.state out.old) (O.state out.new) result }
{
    let points = polytope.points().len() as u64;
    let vertices = polytope.vertices().len() as u64;
    let facets = polytope.facets().len() as u64;
    page.clear();
    page.item_echo(item)?;
    page.body_line(points, vertices, facets)?;
    give(page, out)
}

/// Gives the first line of an item whose polytope is reflexive.
pub(crate) fn give_heading<O: Sink>(
    page: &mut Page,
    codim: u32,
    item: &Item,
    pair: &DualPair,
    out: &mut O,
) -> Result<(), NefFault>
    ensures { LineMeans (heading_text codim (listed item.now) pair.now) (O.state out.old) (O.state out.new) result }
{
    let m_points = pair.m().points().len() as u64;
    let m_vertices = pair.m().vertices().len() as u64;
    let n_points = pair.n().points().len() as u64;
    let n_vertices = pair.n().vertices().len() as u64;
    page.clear();
    page.item_echo(item)?;
    page.nef_line(m_points, m_vertices, n_points, n_vertices, codim)?;
    give(page, out)
}

/// Gives the line that tells how many partitions there are.
pub(crate) fn give_count<O: Sink>(page: &mut Page, count: u64, out: &mut O) -> Result<(), NefFault>
    ensures { LineMeans (closing CountTitle.Nef count) (O.state out.old) (O.state out.new) result }
{
    page.clear();
    page.closing(CountTitle::Nef, count)?;
    give(page, out)
}
