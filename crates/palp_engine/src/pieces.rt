//! The piece of an item: its polytope is worked out, and its dual where that is asked, and the blocks are written.

ghost use Rattle.std.specs.Prelude.{◌≡◌, ◌↔◌, ◌⊎◌, ◌≤◌, not, ◌&&◌, ◌||◌, IsTrue, MatchResult};
ghost use Rattle.lattice_core.specs.Dimensions.{dimension_of};
ghost use Rattle.lattice_core.specs.Stops.{Stops};
ghost use Rattle.lattice_core.specs.PointLists.{ArePoints};
ghost use Rattle.lattice_core.specs.declared.limits.TheConstants.{MOST_COORDINATES};
ghost use Rattle.face_theory.specs.Pairings.{valued};
ghost use Rattle.palp_input.specs.Grammar.{listed};
ghost use Rattle.palp_input.specs.Items.{IsItem};
ghost use Rattle.dual_pair.specs.Polytopes.{IsPolytope as IsDualPolytope};
ghost use Rattle.dual_pair.specs.Pairs.{IsReflexivePolytope, HasNoDual};
ghost use Rattle.palp_engine.specs.Shown.{ask_dual, ask_own_block, only_reflexive, AskNumbers};
ghost use Rattle.palp_engine.specs.Items.{IsItemRefused};
ghost use Rattle.palp_engine.specs.RunSteps.{IsWeightLine, ArePrinted};
ghost use Rattle.palp_engine.specs.FaceSteps.{CanHaveFaces, IsFaceStop};
ghost use Rattle.palp_engine.specs.PieceSteps.{lists_of, list_points, IsPairOf, IsAloneWritten, IsPairWritten, IsPairStop, IsWritten};

use crate::blocks::{all_have_ones, put_alone, put_pair};
use crate::faces::Faces;
use crate::polytopes::{Polytope, polytope_of};
use dual_pair::{DualPair, Kind, Polytope as Lists};
use item_points::points_of_item;
use lattice_core::{Fault, Point};
use palp_input::Item;
use palp_print::Page;
use palp_words::PolyFlags;
use std::alloc::Global;

/// Whether the item is a weight line, whose points are all lattice points of their hull.
fn is_weight_line(item: &Item) -> bool
    ensures { IsTrue result ↔ IsWeightLine (listed item.now) }
{
    match item {
        Item::Weights(_) => true,
        Item::Points(_) => false,
    }
}

/// The number of coordinates of points.
fn dimension(points: &[Point]) -> usize
    requires { ArePoints points.now }
    ensures value { result ≡ dimension_of points.now }
    ensures most { result ≤ MOST_COORDINATES }
{
    points[0].dim()
}

/// Whether the letters ask for the dual of a polytope that has one.
fn asks_dual(flags: &PolyFlags) -> bool
    ensures { result ≡ ask_dual flags.now }
{
    !flags.plain && (flags.general || (flags.dual_points || flags.dual_input))
}

/// Whether the lattice points are listed.
fn lists_points(flags: &PolyFlags) -> bool
    ensures { result ≡ list_points flags.now }
{
    flags.points || asks_dual(flags)
}

/// Whether a pair is printed, as the polytope is reflexive and the dual is asked.
fn shows_pair(flags: &PolyFlags, reflexive: bool) -> bool
    ensures { result ≡ (ask_dual flags.now && reflexive) }
{
    asks_dual(flags) && reflexive
}

/// Whether a block is asked that every polytope has.
fn asks_own_block(flags: &PolyFlags) -> bool
    ensures { result ≡ ask_own_block flags.now }
{
    flags.general
        || (flags.points
            || (flags.vertices || (flags.equations || (flags.matrix || flags.incidence))))
}

/// Whether only of reflexive polytopes anything is printed.
fn prints_only_reflexive(flags: &PolyFlags) -> bool
    ensures { result ≡ only_reflexive flags.now }
{
    flags.reflexive_only || !asks_own_block(flags)
}

/// Whether there is a piece.
fn is_wanted(flags: &PolyFlags, reflexive: bool) -> bool
    ensures { result ≡ (reflexive || not (only_reflexive flags.now)) }
{
    reflexive || !prints_only_reflexive(flags)
}

/// Whether Batyrev's numbers of a pair of this dimension are printed.
fn asks_numbers(flags: &PolyFlags, dim: usize) -> bool
    ensures { IsTrue result ↔ AskNumbers flags.now dim }
{
    flags.general && (3 <= dim && dim <= 5)
}

/// Whether the faces of a pair are asked.
fn asks_faces(flags: &PolyFlags, numbered: bool) -> bool
    ensures { IsTrue result ↔ (IsTrue flags.now.incidence ⊎ IsTrue numbered) }
{
    flags.incidence || numbered
}

/// The pair of a reflexive polytope, or the refusal of its dual. Where it is to be `turned` the dual takes the polytope's place.
fn pair_of(alloc: Global, polytope: Polytope, turned: bool) -> Result<DualPair, Fault>
    requires polytope { IsDualPolytope (lists_of polytope) }
    requires reflexive { IsReflexivePolytope (lists_of polytope) }
    ensures { MatchResult result (IsPairOf turned (lists_of polytope)) (Stops (HasNoDual (lists_of polytope))) }
{
    let lists = Lists::of_lists(polytope.vertices, polytope.facets, polytope.lattice);
    match DualPair::of(alloc, lists)? {
        Kind::Reflexive(pair) => Ok(if turned { pair.swap() } else { pair }),
        Kind::Other(_) => unreachable!(),
    }
}

/// Writes the blocks of a polytope alone.
fn write_alone(
    alloc: Global,
    page: &mut Page,
    faces: &mut Faces,
    flags: &PolyFlags,
    item: &Item,
    polytope: &Polytope,
) -> Result<(), Fault>
    requires printed { ArePrinted flags.now.points polytope.now }
    requires faces { CanHaveFaces polytope.now.facets.items polytope.now.vertices.items }
    ensures { MatchResult result
        (λ done. IsAloneWritten flags.now (listed item.now) polytope.now page.old page.new)
        (Stops (IsFaceStop flags.now.incidence (valued polytope.now.vertices.items polytope.now.facets.items))) }
{
    faces.find_where(alloc, flags.incidence, &polytope.facets, &polytope.vertices)?;
    let counts = faces.counts();
    let dim = dimension(&polytope.vertices);
    put_alone(page, flags, item, polytope, &counts[..dim])?;
    Ok(())
}

/// Writes the blocks of a pair.
fn write_pair(
    alloc: Global,
    page: &mut Page,
    faces: &mut Faces,
    flags: &PolyFlags,
    item: &Item,
    pair: &DualPair,
) -> Result<(), Fault>
    ensures { MatchResult result
        (λ done. IsPairWritten flags.now (listed item.now) pair.now page.old page.new)
        (Stops (IsPairStop flags.now pair.now)) }
{
    let m = pair.m();
    let numbered = asks_numbers(flags, m.dim());
    let asked = asks_faces(flags, numbered);
    faces.find_where(alloc, asked, m.facets(), m.vertices())?;
    let numbers = faces.numbers_where(numbered, pair);
    let counts = faces.counts();
    put_pair(page, flags, item, pair, &numbers, &counts[..m.dim()])?;
    Ok(())
}

/// Writes the piece of an item on a page, in place of what stood there, or answers that it has none, or its refusal.
pub(crate) fn write_piece(
    alloc: Global,
    page: &mut Page,
    faces: &mut Faces,
    flags: &PolyFlags,
    item: &Item,
) -> Result<bool, Fault>
    requires { IsItem (listed item.now) }
    ensures { MatchResult result
        (IsWritten flags.now (listed item.now) page.new)
        (Stops (IsItemRefused flags.now (listed item.now))) }
{
    page.clear();
    let points = points_of_item(alloc, item)?;
    let listed = lists_points(flags);
    let polytope = polytope_of(alloc, points, is_weight_line(item), listed)?;
    let reflexive = all_have_ones(&polytope.facets);
    if shows_pair(flags, reflexive) {
        let pair = pair_of(alloc, polytope, flags.dual_input)?;
        write_pair(alloc, page, faces, flags, item, &pair)?;
        return Ok(true);
    }
    write_alone(alloc, page, faces, flags, item, &polytope)?;
    Ok(is_wanted(flags, reflexive))
}
