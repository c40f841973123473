//! The blocks of an item.

ghost use Rattle.std.specs.Prelude.{◌≡◌, ◌++◌, IsTrue, length, OnOk};
ghost use Rattle.lattice_core.specs.PointLists.{ArePoints};
ghost use Rattle.palp_input.specs.Grammar.{listed};
ghost use Rattle.palp_print.specs.Lists.{item_echo, body_line, pair_line};
ghost use Rattle.palp_print.specs.Blocks.{AreFunctions, ArePaired, columns, pairing, incidence};
ghost use Rattle.palp_print.specs.declared.titles.Title.TheVariants as Title;
ghost use Rattle.palp_engine.specs.Shown.{Paired};
ghost use Rattle.palp_engine.specs.Items.{have_ones, facet_block, asked, list_blocks, blocks};
ghost use Rattle.palp_engine.specs.RunSteps.{ArePrinted};
ghost use Rattle.palp_engine.specs.PieceSteps.{blocks_of};

use crate::polytopes::Polytope;
use batyrev::HodgeLine;
use dual_pair::DualPair;
use lattice_core::{Functional, NoMemory, Point};
use palp_input::Item;
use palp_print::{Page, Title};
use palp_words::PolyFlags;

/// Appends the general line, where it is asked.
fn put_general(page: &mut Page, on: bool, item: &Item, polytope: &Polytope) -> Result<(), NoMemory>
    ensures { OnOk result (page.new ≡ page.old ++ asked on (item_echo (listed item.now)
        ++ body_line polytope.now.count (length polytope.now.vertices.items) (length polytope.now.facets.items))) }
{
    if !on {
        return Ok(());
    }
    page.item_echo(item)?;
    page.body_line(
        polytope.count,
        polytope.vertices.len() as u64,
        polytope.facets.len() as u64,
    )
}

/// Appends points, where they are asked.
fn put_columns(page: &mut Page, on: bool, title: Title, points: &[Point]) -> Result<(), NoMemory>
    requires { IsTrue on → ArePoints points.now }
    ensures { OnOk result (page.new ≡ page.old ++ asked on (columns title points.now)) }
{
    if !on {
        return Ok(());
    }
    page.columns(title, points)
}

/// Whether the constants of all facets are 1.
pub(crate) fn all_have_ones(facets: &[Functional]) -> bool
    ensures { result ≡ have_ones facets.now }
{
    facets.iter().all(|f| f.constant() == 1)
}

/// Appends the facets, where they are asked.
fn put_facets(page: &mut Page, on: bool, facets: &[Functional]) -> Result<(), NoMemory>
    requires { AreFunctions facets.now }
    ensures { OnOk result (page.new ≡ page.old ++ asked on (facet_block facets.now)) }
{
    if !on {
        return Ok(());
    }
    if all_have_ones(facets) {
        return page.dual_rows(facets);
    }
    page.equations(facets)
}

/// Appends the values of facets at vertices, where they are asked.
fn put_pairing(
    page: &mut Page,
    on: bool,
    facets: &[Functional],
    vertices: &[Point],
) -> Result<(), NoMemory>
    requires { ArePaired facets.now vertices.now }
    ensures { OnOk result (page.new ≡ page.old ++ asked on (pairing facets.now vertices.now)) }
{
    if !on {
        return Ok(());
    }
    page.pairing(facets, vertices)
}

/// Appends the numbers of faces and the incidences of facets and vertices, where they are asked.
fn put_incidence(
    page: &mut Page,
    on: bool,
    counts: &[u32],
    facets: &[Functional],
    vertices: &[Point],
) -> Result<(), NoMemory>
    requires { ArePaired facets.now vertices.now }
    ensures { OnOk result (page.new ≡ page.old ++ asked on (incidence counts.now facets.now vertices.now)) }
{
    if !on {
        return Ok(());
    }
    page.incidence(counts, facets, vertices)
}

/// Appends the blocks that the letters ask of an item whose polytope is printed alone. `counts` are the numbers of faces of the dimensions from 0
/// on, where they are asked.
pub(crate) fn put_alone(
    page: &mut Page,
    flags: &PolyFlags,
    item: &Item,
    polytope: &Polytope,
    counts: &[u32],
) -> Result<(), NoMemory>
    requires { ArePrinted flags.now.points polytope.now }
    ensures { OnOk result (page.new ≡ page.old ++ blocks_of flags.now (listed item.now) polytope.now counts.now) }
{
    put_general(page, flags.general, item, polytope)?;
    put_columns(page, flags.points, Title::Points, &polytope.lattice)?;
    put_columns(page, flags.vertices, Title::Vertices, &polytope.vertices)?;
    put_facets(page, flags.equations, &polytope.facets)?;
    put_pairing(page, flags.matrix, &polytope.facets, &polytope.vertices)?;
    put_incidence(
        page,
        flags.incidence,
        counts,
        &polytope.facets,
        &polytope.vertices,
    )
}

/// Appends the general line of a pair, where it is asked.
fn put_pair_line(
    page: &mut Page,
    on: bool,
    item: &Item,
    pair: &DualPair,
    numbers: &HodgeLine,
) -> Result<(), NoMemory>
    ensures { OnOk result (page.new ≡ page.old ++ asked on (item_echo (listed item.now)
        ++ pair_line (length pair.now.m.points) (length pair.now.m.vertices) (length pair.now.n.points) (length pair.now.n.vertices) numbers.now)) }
{
    if !on {
        return Ok(());
    }
    page.item_echo(item)?;
    page.pair_line(
        pair.m().points().len() as u64,
        pair.m().vertices().len() as u64,
        pair.n().points().len() as u64,
        pair.n().vertices().len() as u64,
        numbers,
    )
}

/// Appends the blocks of lists that the letters ask, with those of the dual's points. `counts` are the numbers of faces of the dimensions from 0 on,
/// where they are asked.
fn put_lists(
    page: &mut Page,
    flags: &PolyFlags,
    points: &[Point],
    vertices: &[Point],
    facets: &[Functional],
    duals: &[Point],
    counts: &[u32],
) -> Result<(), NoMemory>
    requires points { ArePoints points.now }
    requires duals { ArePoints duals.now }
    requires paired { ArePaired facets.now vertices.now }
    ensures { OnOk result (page.new ≡ page.old ++ list_blocks flags.now
        (record { vertices = vertices.now; facets = facets.now; points = points.now }) (columns Title.DualPoints duals.now) counts.now) }
{
    put_columns(page, flags.points, Title::Points, points)?;
    put_columns(page, flags.vertices, Title::Vertices, vertices)?;
    put_facets(page, flags.equations, facets)?;
    put_pairing(page, flags.matrix, facets, vertices)?;
    put_columns(page, flags.dual_points, Title::DualPoints, duals)?;
    put_incidence(page, flags.incidence, counts, facets, vertices)
}

/// Appends the blocks that the letters ask of an item of which a pair is printed, with Batyrev's numbers. `counts` are the numbers of faces of the
/// dimensions from 0 on, where they are asked.
pub(crate) fn put_pair(
    page: &mut Page,
    flags: &PolyFlags,
    item: &Item,
    pair: &DualPair,
    numbers: &HodgeLine,
    counts: &[u32],
) -> Result<(), NoMemory>
    requires points { ArePoints pair.now.m.points }
    requires dual_points { ArePoints pair.now.n.points }
    requires paired { ArePaired pair.now.m.facets pair.now.m.vertices }
    ensures { OnOk result (page.new ≡ page.old ++ blocks flags.now (listed item.now) (Paired pair.now) numbers.now counts.now) }
{
    let m = pair.m();
    put_pair_line(page, flags.general, item, pair, numbers)?;
    put_lists(
        page,
        flags,
        m.points(),
        m.vertices(),
        m.facets(),
        pair.n().points(),
        counts,
    )
}
