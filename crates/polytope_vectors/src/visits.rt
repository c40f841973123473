//! Visits of dilates agree with a plain filter of a box, and end where a visitor has enough.

ghost use Rattle.std.specs.Prelude.{◌≤◌};
ghost use Rattle.lattice_core.specs.PointLists.{ArePoints};

use crate::dilates::{filtered, shape};
use crate::scans::{are_points, count_of};
use hull::facets_of;
use lattice_core::{Fault, NoMemory, Point};
use point_scan::{Visitor, for_each_dilate};
use std::alloc::Global;
use std::test::Fail;

/// Takes points that are compared with those that are wanted, until it has enough or one is another.
#[derive(Drop)]
struct Compares {
    dimension: usize,
    wanted: Vec<Point>,
    enough: usize,
    visits: usize,
    same: usize,
}

impl Visitor for Compares {
    ghost use Rattle.std.specs.Prelude.{⊤};

    ghost dimension = { λ v. v.dimension };

    ghost visits = { λ _ _ _ _. ⊤ };

    fn visit(&mut self, x: &Point) -> bool {
        let place = self.visits;
        self.visits = place.wrapping_add(1);
        if place >= self.wanted.len() || self.wanted[place].entries() != x.entries() {
            return false;
        }
        self.same = self.same.wrapping_add(1);
        self.visits < self.enough
    }
}

/// Whether a visitor that wants so many points of the dilate takes these, and whether it takes all.
fn takes(
    alloc: Global,
    vertices: &[Point],
    dilate: u32,
    wanted: Vec<Point>,
    enough: usize,
) -> Result<bool, Fault>
    requires vertices { ArePoints vertices.now }
    requires dilate { dilate ≤ 7 }
{
    let facets = facets_of(alloc, vertices)?;
    let most = wanted.len().min(enough);
    let ends = enough > wanted.len();
    let mut compares = Compares {
        dimension: vertices[0].dim(),
        wanted,
        enough,
        visits: 0,
        same: 0,
    };
    let all = for_each_dilate(alloc, vertices, &facets, dilate, &mut compares)?;
    Ok(all == ends && compares.visits == most && compares.same == most)
}

/// Whether visitors that want one point, three and all of them take the points of the filter, for the first dilates.
fn agree(alloc: Global, vertices: &[Point], n: usize) -> Result<bool, Fault>
    requires vertices { ArePoints vertices.now }
{
    let facets = facets_of(alloc, vertices)?;
    for dilate in 0..4 {
        for enough in [1, 3, 100_000] {
            let wanted = filtered(alloc, &facets, dilate, n)?;
            if !takes(alloc, vertices, dilate, wanted, enough)? {
                return Ok(false);
            }
        }
    }
    Ok(true)
}

#[test]
fn visits_agree_with_filters(rt: HostRuntime) -> Result<(), Fail> {
    for n in 1..5_usize {
        for which in 0..3 {
            let vertices = shape(rt.alloc(), n, which)?;
            assert!(rt; are_points(&vertices) && agree(rt.alloc(), &vertices, n)?);
        }
    }
    Ok(())
}

/// The simplex of dimension 5 with the edges' length 6 and the origin as its only inner point.
fn long_simplex(alloc: Global) -> Result<Vec<Point>, NoMemory> {
    let mut points = Vec::new(alloc);
    for axis in 0..6_usize {
        let mut entries = [-1; 5];
        if axis < 5 {
            entries[axis] = 5;
        }
        if let Some(point) = Point::new(entries.as_slice()) {
            points.push(point)?;
        }
    }
    Ok(points)
}

#[test]
fn counts_a_large_dilate(rt: HostRuntime) -> Result<(), Fail> {
    let vertices = long_simplex(rt.alloc())?;
    assert!(rt;
        are_points(&vertices) && count_of(rt.alloc(), &vertices, 7, 2_000_000)? == 1_533_939
    );
    Ok(())
}
