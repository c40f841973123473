//! The points of a segment's double by their bases.
ghost use Rattle.std.specs.Prelude.{◌≡◌, [], ◌∷◌, IfOk};
ghost use Rattle.lattice_theory.specs.Examples.{segment};
ghost use Rattle.lattice_theory.proofs.SegmentFacets.{lower, upper};

use crate::{DilateRoom, MOST_COUNTED, count_dilate};
use bit_pool::Generation;
use lattice_core::{Functional, NoMemory, Point};
use point_scan::count_to;
use std::alloc::Global;
use std::test::Fail;

/// The point of the line with this entry.
fn on_line(x: i64) -> Point
    ensures { result ≡ x ∷ [] }
{
    match Point::new(&[x]) {
        Some(point) => point,
        None => unreachable!(),
    }
}

/// The function `a x + c`, or the vector with the entry a whose part is the absolute value of c.
fn function(a: i64, c: i128) -> Functional
    ensures normal { result.normal ≡ a ∷ [] }
    ensures constant { result.constant ≡ c }
{
    match Functional::new(&[a], c) {
        Some(function) => function,
        None => unreachable!(),
    }
}

/// The ends of the segment from -2 to 5.
fn ends(alloc: Global) -> Result<Vec<Point>, NoMemory>
    ensures { IfOk result (λ ends. ends.items ≡ segment) }
{
    let mut ends = Vec::new(alloc);
    ends.push(on_line(-2))?;
    ends.push(on_line(5))?;
    Ok(ends)
}

/// Its facets.
fn facets(alloc: Global) -> Result<Vec<Functional>, NoMemory>
    ensures { IfOk result (λ facets. facets.items ≡ lower ∷ upper ∷ []) }
{
    let mut facets = Vec::new(alloc);
    facets.push(function(1, 2))?;
    facets.push(function(-1, 5))?;
    Ok(facets)
}

/// Two sets of vectors: the first one alone, and none.
fn sets(alloc: Global) -> Result<Generation, bit_pool::NoMemory>
    ensures { IfOk result (λ sets. sets.rows ≡ (1 ∷ []) ∷ (0 ∷ []) ∷ []) }
{
    let mut sets = Generation::open(alloc, 0, 1, 2)?;
    sets.push(&[1]);
    sets.push(&[0]);
    Ok(sets)
}

/// The counts of the double's points in a room, or none where these are too many.
fn counts(alloc: Global, room: &mut DilateRoom, sets: &Generation) -> Result<Vec<u32>, NoMemory>
    requires { sets.now.rows ≡ (1 ∷ []) ∷ (0 ∷ []) ∷ [] }
{
    let ends = ends(alloc)?;
    let facets = facets(alloc)?;
    if count_to(alloc, &ends, &facets, 2, u64::from(MOST_COUNTED))? > u64::from(MOST_COUNTED) {
        return Ok(Vec::new(alloc));
    }
    let vectors = [function(-1, 0), function(0, 0), function(1, 0)];
    count_dilate(alloc, room, &ends, &facets, 2, 1, &vectors, sets)
}

#[test]
fn counts_the_points_of_a_segment_in_a_room(rt: HostRuntime) -> Result<(), Fail> {
    let sets = sets(rt.alloc())?;
    let mut room = DilateRoom::new(rt.alloc());
    for _ in 0..2 {
        let counts = counts(rt.alloc(), &mut room, &sets)?;
        assert_eq!(rt;
            counts.as_slice(),
            [1, 1, 1, 1, 1, 1, 1, 1, 2, 2, 2, 2, 1, 1].as_slice()
        );
    }
    Ok(())
}
