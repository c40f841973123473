//! The lattice points of a segment, and their number in its double.

ghost use Rattle.std.specs.Prelude.{◌≡◌, [], ◌∷◌, IfOk};
ghost use Rattle.lattice_theory.specs.Examples.{segment};
ghost use Rattle.lattice_theory.proofs.SegmentFacets.{lower, upper};

use super::{count_to, scan};
use lattice_core::{Fault, Functional, NoMemory, Point};
use std::alloc::Global;
use std::test::Fail;

/// The point of the line with this entry.
fn on_line(x: i64) -> Point
    ensures { result ≡ x ∷ [] }
{
    match Point::new(&[x]) {
        Some(point) => point,
        None => unreachable!(),
    }
}

/// The function `a x + c`.
fn function(a: i64, c: i128) -> Functional
    ensures normal { result.normal ≡ a ∷ [] }
    ensures constant { result.constant ≡ c }
{
    match Functional::new(&[a], c) {
        Some(function) => function,
        None => unreachable!(),
    }
}

/// The ends of the segment from -2 to 5.
pub(crate) fn ends(alloc: Global) -> Result<Vec<Point>, NoMemory>
    ensures { IfOk result (λ ends. ends.items ≡ segment) }
{
    let mut ends = Vec::new(alloc);
    ends.push(on_line(-2))?;
    ends.push(on_line(5))?;
    Ok(ends)
}

/// Its facets.
pub(crate) fn facets(alloc: Global) -> Result<Vec<Functional>, NoMemory>
    ensures { IfOk result (λ facets. facets.items ≡ lower ∷ upper ∷ []) }
{
    let mut facets = Vec::new(alloc);
    facets.push(function(1, 2))?;
    facets.push(function(-1, 5))?;
    Ok(facets)
}

/// How many lattice points are found, and how many are counted in the double.
fn numbers(alloc: Global) -> Result<(usize, u64), Fault> {
    let ends = ends(alloc)?;
    let facets = facets(alloc)?;
    let found = scan(alloc, &ends, &facets)?;
    let counted = count_to(alloc, &ends, &facets, 2, 100)?;
    Ok((found.len(), counted))
}

#[test]
fn finds_the_points_of_a_segment(rt: HostRuntime) -> Result<(), Fail> {
    let (found, counted) = numbers(rt.alloc())?;
    assert_eq!(rt; found, 8);
    assert_eq!(rt; counted, 15);
    Ok(())
}
