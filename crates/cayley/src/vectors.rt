//! The vectors of a cone: points with the unit vectors of their parts behind them. Each is kept as a function, with the point as its normal and the
//! part's negative as its constant, so that functions are in the order of these vectors.
ghost use Rattle.std.specs.Prelude.{◌≡◌, ℕ, [], ◌<◌, ◌≤◌, length, IfOk};
ghost use Rattle.std.specs.List.{All};
ghost use Rattle.lattice_theory.specs.Vector.{HaveDimension};
ghost use Rattle.lattice_theory.specs.Order.{Ascends, FunctionLess};
ghost use Rattle.lattice_core.specs.declared.limits.TheConstants.{MOST_COORDINATES};
ghost use Rattle.lattice_core.specs.Dimensions.{dimension_of};
ghost use Rattle.cayley.specs.ConeSteps.{with_part, kept_point, kept_unit, AddsFirst, HoldFunctions};

use lattice_core::{Functional, MOST_COORDINATES, NoMemory, Point, ascending_functions};
use std::alloc::Global;

/// A vector with its part.
fn with_part(x: &[i64], part: usize) -> Functional
    requires least { 1 ≤ length x.now }
    requires most { length x.now ≤ MOST_COORDINATES }
    ensures { result ≡ with_part x.now part }
{
    match Functional::new(x, -(part as i128)) {
        Some(function) => function,
        None => unreachable!(),
    }
}

/// The points at these places, part by part, in order and each once.
pub(crate) fn members_of(
    alloc: Global,
    points: &[Point],
    places: &[u32],
    parts: usize,
) -> Result<Vec<Functional>, NoMemory>
    requires parts { 1 ≤ parts }
    requires places { All (λ place. place < length points.now) places.now }
    requires dimension { (n : ℕ) × HaveDimension n points.now }
    ensures ascends { IfOk result (λ members. Ascends FunctionLess members.items) }
    ensures members { IfOk result (λ members. AddsFirst (kept_point points.now places.now parts) [] (length places.now) members.items) }
{
    let mut members = Vec::new(alloc);
    for k in 0..places.len() {
        let point = &points[places[k] as usize];
        members.push(with_part(point.entries(), k % parts))?;
    }
    ascending_functions(&mut members);
    Ok(members)
}

/// The normals with their parts, and the unit vectors of the parts alone, in order and each once.
pub(crate) fn functions_of(
    alloc: Global,
    normals: &[Point],
    part_of: &[u8],
    parts: usize,
) -> Result<Vec<Functional>, NoMemory>
    requires some { 0 < length normals.now }
    requires numbers { length part_of.now ≡ length normals.now }
    requires dimension { HaveDimension (dimension_of normals.now) normals.now }
    ensures ascends { IfOk result (λ functions. Ascends FunctionLess functions.items) }
    ensures functions { IfOk result (λ functions. HoldFunctions (dimension_of normals.now) normals.now part_of.now parts functions.items) }
{
    let mut functions = Vec::new(alloc);
    for e in 0..normals.len() {
        functions.push(with_part(normals[e].entries(), part_of[e] as usize))?;
    }
    push_units(&mut functions, normals[0].dim(), parts)?;
    ascending_functions(&mut functions);
    Ok(functions)
}

/// Adds the unit vectors of the parts, with zeros before them.
fn push_units(functions: &mut Vec<Functional>, dim: usize, parts: usize) -> Result<(), NoMemory>
    requires least { 1 ≤ dim }
    requires most { dim ≤ MOST_COORDINATES }
    ensures { IfOk result (λ done. AddsFirst (kept_unit dim) functions.old.items parts functions.new.items) }
{
    let zeros = [0; MOST_COORDINATES];
    for part in 0..parts {
        functions.push(with_part(&zeros[..dim], part))?;
    }
    Ok(())
}
