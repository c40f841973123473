//! Scans and counts of small polytopes.

ghost use Rattle.std.specs.Prelude.{◌≤◌, IsTrue};
ghost use Rattle.lattice_core.specs.PointLists.{ArePoints};

use hull::facets_of;
use lattice_core::{Fault, LimitName, NoMemory, Point, Refusal};
use point_scan::{count_to, scan};
use std::alloc::Global;
use std::test::Fail;

/// The points with these entries.
pub(crate) fn points_of<const N: usize>(
    alloc: Global,
    entries: &[[i64; N]],
) -> Result<Vec<Point>, NoMemory> {
    let mut points = Vec::new(alloc);
    for x in entries {
        if let Some(point) = Point::new(x.as_slice()) {
            points.push(point)?;
        }
    }
    Ok(points)
}

/// Whether there is a point, and all have as many coordinates as the first.
pub(crate) fn are_points(points: &[Point]) -> bool
    ensures { IsTrue result → ArePoints points.now }
{
    if points.is_empty() {
        return false;
    }
    let n = points[0].dim();
    points.iter().all(|p| p.dim() == n)
}

/// The lattice points, by the facets that are found.
pub(crate) fn scan_of(alloc: Global, vertices: &[Point]) -> Result<Vec<Point>, Fault>
    requires vertices { ArePoints vertices.now }
{
    let facets = facets_of(alloc, vertices)?;
    scan(alloc, vertices, &facets)
}

/// The number of lattice points of a dilate, by the facets that are found.
pub(crate) fn count_of(
    alloc: Global,
    vertices: &[Point],
    dilate: u32,
    limit: u64,
) -> Result<u64, Fault>
    requires vertices { ArePoints vertices.now }
    requires dilate { dilate ≤ 7 }
    requires limit { limit ≤ 1_099_511_627_776 }
{
    let facets = facets_of(alloc, vertices)?;
    Ok(count_to(alloc, vertices, &facets, dilate, limit)?)
}

fn scanned<const N: usize>(alloc: Global, entries: &[[i64; N]]) -> Result<Vec<Point>, Fault> {
    let vertices = points_of(alloc, entries)?;
    if !are_points(&vertices) {
        return Ok(Vec::new(alloc));
    }
    scan_of(alloc, &vertices)
}

fn counted<const N: usize>(
    alloc: Global,
    entries: &[[i64; N]],
    dilate: u32,
    limit: u64,
) -> Result<u64, Fault>
    requires dilate { dilate ≤ 7 }
    requires limit { limit ≤ 100 }
{
    let vertices = points_of(alloc, entries)?;
    if !are_points(&vertices) {
        return Ok(0);
    }
    count_of(alloc, &vertices, dilate, limit)
}

#[test]
fn lists_the_points_of_a_triangle_in_order(rt: HostRuntime) -> Result<(), Fail> {
    let found = scanned(rt.alloc(), &[[-1, -1], [3, -1], [-1, 2]])?;
    let want = [
        [-1, -1],
        [-1, 0],
        [-1, 1],
        [-1, 2],
        [0, -1],
        [0, 0],
        [0, 1],
        [1, -1],
        [1, 0],
        [2, -1],
        [3, -1],
    ];
    assert_eq!(rt; found.len(), want.len());
    assert!(rt;
        found
            .iter()
            .zip(&want)
            .all(|(point, entries)| point.entries() == entries.as_slice())
    );
    Ok(())
}

#[test]
fn counts_the_points_of_dilates(rt: HostRuntime) -> Result<(), Fail> {
    let triangle = [[-1, -1], [-1, 2], [2, -1]];
    for (dilate, limit, want) in [
        (0, 100, 1),
        (1, 100, 10),
        (2, 100, 28),
        (2, 20, 21),
        (2, 28, 28),
    ] {
        assert_eq!(rt; counted(rt.alloc(), &triangle, dilate, limit)?, want);
    }
    Ok(())
}

#[test]
fn counts_the_points_of_solids(rt: HostRuntime) -> Result<(), Fail> {
    let octahedron = [
        [1, 0, 0],
        [-1, 0, 0],
        [0, 1, 0],
        [0, -1, 0],
        [0, 0, 1],
        [0, 0, -1],
    ];
    assert_eq!(rt; scanned(rt.alloc(), &octahedron)?.len(), 7);
    assert_eq!(rt; counted(rt.alloc(), &octahedron, 2, 100)?, 25);
    let segment = [[5], [-2]];
    assert_eq!(rt; scanned(rt.alloc(), &segment)?.len(), 8);
    Ok(())
}

#[test]
fn refuses_more_points_than_the_limit(rt: HostRuntime) -> Result<(), Fail> {
    let full = scanned(rt.alloc(), &[[-64, -64], [63, -64], [-64, 63], [63, 63]])?;
    assert_eq!(rt; full.len(), 16_384);
    let more = scanned(rt.alloc(), &[[-72, -56], [72, -56], [-72, 56], [72, 56]]);
    assert_eq!(rt;
        more.err(),
        Some(Fault::Refused(Refusal::Limit(LimitName::Points, 16_385)))
    );
    Ok(())
}
