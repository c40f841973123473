//! The base of a point over the vectors of a segment's cone.
ghost use Rattle.std.specs.Prelude.{◌≡◌, [], ◌∷◌};

use crate::{add_point, base_into, degree_of, tight_at, tight_into};
use bit_pool::Generation;
use lattice_core::{Functional, Point};
use std::test::Fail;

/// The vector with this entry, whose part is the absolute value of a number.
fn vector(entry: i64, part: i128) -> Functional
    ensures normal { result.normal ≡ entry ∷ [] }
    ensures constant { result.constant ≡ part }
{
    match Functional::new(&[entry], part) {
        Some(vector) => vector,
        None => unreachable!(),
    }
}

#[test]
fn finds_the_base_of_a_point(rt: HostRuntime) -> Result<(), Fail> {
    let vectors = [vector(-1, 0), vector(0, -1), vector(0, 0), vector(1, -1)];
    let x = Point::new(&[2]).expect(&rt, "one entry");
    let mut base = [0; 2];
    base_into(&mut base, &vectors, &x);
    assert_eq!(rt; base, [2, 0]);
    assert_eq!(rt; degree_of(&base), 2);
    let mut words = [0; 1];
    tight_into(&mut words, &vectors, &x, &base);
    assert_eq!(rt; words, [3]);
    Ok(())
}

#[test]
fn counts_a_point_for_the_sets_within(rt: HostRuntime) -> Result<(), Fail> {
    let mut sets = Generation::open(rt.alloc(), 0, 1, 2)?;
    sets.push(&[1]);
    sets.push(&[4]);
    let mut counts = [0; 14];
    add_point(&mut counts, &sets, &[3], 2);
    assert_eq!(rt; counts, [0, 0, 1, 0, 0, 0, 0, 0, 0, 0, 0, 0, 0, 0]);
    Ok(())
}

#[test]
fn tells_the_degree_of_a_point(rt: HostRuntime) -> Result<(), Fail> {
    let vectors = [vector(-1, 0), vector(0, -1), vector(0, 0), vector(1, -1)];
    let x = Point::new(&[2]).expect(&rt, "one entry");
    let mut tight = [0; 1];
    let degree = tight_at(&mut tight, &mut [0; 2], &vectors, &x);
    assert_eq!(rt; degree, Some(2));
    assert_eq!(rt; tight, [3]);
    Ok(())
}
