//! Scans and counts agree with a plain filter of a box on small polytopes.

ghost use Rattle.std.specs.Prelude.{◌≤◌};
ghost use Rattle.lattice_core.specs.PointLists.{ArePoints};

use crate::hulls::{add, add_axes, are_same_points};
use crate::scans::{are_points, count_of, scan_of};
use hull::facets_of;
use lattice_core::{Fault, Functional, NoMemory, Point};
use std::alloc::Global;
use std::test::Fail;

/// The numbers of vectors with up to four entries from -6 to 6.
const SIZES: [u32; 5] = [1, 13, 169, 2_197, 28_561];

/// The value of the function with its constant taken `dilate` times.
fn value_over(f: &Functional, dilate: u32, x: &[i64]) -> i128 {
    let mut sum = f.constant().wrapping_mul(i128::from(dilate));
    for (a, b) in f.normal().iter().zip(x) {
        sum = sum.wrapping_add(i128::from(*a).wrapping_mul(i128::from(*b)));
    }
    sum
}

/// Whether the vector is in the dilate.
fn is_in_dilate(facets: &[Functional], dilate: u32, x: &[i64]) -> bool {
    for f in facets {
        if value_over(f, dilate, x) < 0 {
            return false;
        }
    }
    true
}

/// The vector with this number among those with `n` entries from -6 to 6, in lexicographic order.
fn vector(number: u32, n: usize) -> [i64; 6] {
    let mut entries = [0; 6];
    let mut rest = number;
    for place in (0..n.min(6)).rev() {
        entries[place] = i64::from(rest % 13) - 6;
        rest /= 13;
    }
    entries
}

/// The vectors of the dilate with entries from -6 to 6.
pub(crate) fn filtered(
    alloc: Global,
    facets: &[Functional],
    dilate: u32,
    n: usize,
) -> Result<Vec<Point>, NoMemory> {
    let mut points = Vec::new(alloc);
    for number in 0..SIZES[n.min(4)] {
        let entries = vector(number, n);
        if is_in_dilate(facets, dilate, &entries[..n.min(6)]) {
            add(&mut points, n, entries.as_slice())?;
        }
    }
    Ok(points)
}

/// Whether the scan gives those of the box, and the counts of the dilates are as many.
fn agree(alloc: Global, vertices: &[Point]) -> Result<bool, Fault>
    requires vertices { ArePoints vertices.now }
{
    let facets = facets_of(alloc, vertices)?;
    let n = vertices[0].dim();
    let found = scan_of(alloc, vertices)?;
    if !are_same_points(&found, &filtered(alloc, &facets, 1, n)?) {
        return Ok(false);
    }
    for dilate in 0..4 {
        let wanted = filtered(alloc, &facets, dilate, n)?;
        if count_of(alloc, vertices, dilate, 16_384)? != wanted.len() as u64 {
            return Ok(false);
        }
    }
    Ok(true)
}

/// Whether these are points on which all agree.
fn are_agreed(alloc: Global, vertices: &[Point]) -> Result<bool, Fault> {
    if !are_points(vertices) {
        return Ok(false);
    }
    agree(alloc, vertices)
}

/// A simplex, a cross-polytope and a thin simplex.
pub(crate) fn shape(alloc: Global, n: usize, which: u32) -> Result<Vec<Point>, NoMemory> {
    let mut points = Vec::new(alloc);
    add_axes(&mut points, n, 1)?;
    if which == 0 {
        add(&mut points, n, &[-1; 6])?;
    } else if which == 1 {
        add_axes(&mut points, n, -1)?;
    } else {
        add(&mut points, n, &[2, 1, 2, 2, 0, 0])?;
    }
    Ok(points)
}

#[test]
fn scans_agree_with_filters(rt: HostRuntime) -> Result<(), Fail> {
    for n in 1..5_usize {
        for which in 0..3 {
            assert!(rt; are_agreed(rt.alloc(), &shape(rt.alloc(), n, which)?)?);
        }
    }
    Ok(())
}
