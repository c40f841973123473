//! Tests of frames.
ghost use Rattle.std.specs.Prelude.{◌≡◌, ◌<◌, length, IsTrue, IfOk};
ghost use Rattle.lattice_core.specs.Weights.{weighted_all, AreWellFormed, AreWithinLimits};
ghost use Rattle.weight_frame.specs.steps.Plain.{is_plain, is_summed};

use super::*;
use lattice_core::{Point, WeightSystem};
use std::alloc::{AllocError, Global};
use std::test::Fail;

/// A system with this degree and these weights.
fn system(alloc: Global, degree: u64, weights: &[u64]) -> Result<WeightSystem, AllocError>
    ensures degree { IfOk result (λ s. s.degree ≡ degree) }
    ensures weights { IfOk result (λ s. s.weights.items ≡ weights.now) }
{
    let mut kept = Vec::new(alloc);
    for weight in weights {
        kept.push(*weight)?;
    }
    Ok(WeightSystem {
        degree,
        weights: kept,
    })
}

/// The list of one system with positive weights.
fn one_system(alloc: Global, degree: u64, weights: &[u64]) -> Result<Vec<WeightSystem>, AllocError>
    requires { IsTrue (is_plain degree weights.now) }
    ensures formed { IfOk result (λ s. AreWellFormed (weighted_all s.items)) }
    ensures limited { IfOk result (λ s. AreWithinLimits (weighted_all s.items)) }
{
    let mut systems = Vec::new(alloc);
    systems.push(system(alloc, degree, weights)?)?;
    Ok(systems)
}

/// The list of a system with positive weights and another.
fn two_systems(
    alloc: Global,
    degree: u64,
    weights: &[u64],
    other_degree: u64,
    other_weights: &[u64],
) -> Result<Vec<WeightSystem>, AllocError>
    requires first { IsTrue (is_plain degree weights.now) }
    requires second { IsTrue (is_summed (length weights.now) other_degree other_weights.now) }
    ensures formed { IfOk result (λ s. AreWellFormed (weighted_all s.items)) }
    ensures limited { IfOk result (λ s. AreWithinLimits (weighted_all s.items)) }
{
    let mut systems = Vec::new(alloc);
    systems.push(system(alloc, degree, weights)?)?;
    systems.push(system(alloc, other_degree, other_weights)?)?;
    Ok(systems)
}

/// Whether the vector at the place `j` has these entries.
fn has_row(frame: &Frame, j: usize, row: &[i128]) -> bool
    requires { j < length frame.now.vectors }
{
    if frame.columns() != row.len() {
        return false;
    }
    for i in 0..row.len() {
        if frame.entry(j, i) != row[i] {
            return false;
        }
    }
    true
}

/// Whether the frame has these vectors.
fn has_rows(frame: &Frame, rows: &[&[i128]]) -> bool {
    if frame.dim() != rows.len() {
        return false;
    }
    for j in 0..rows.len() {
        if !has_row(frame, j, rows[j]) {
            return false;
        }
    }
    true
}

#[test]
fn makes_the_frame_of_one_system(rt: HostRuntime) -> Result<(), Fail> {
    let alloc = rt.alloc();
    match frame_of(alloc, &one_system(alloc, 84, &[1, 1, 12, 28, 42])?) {
        Ok(frame) => {
            let rows: [&[i128]; 4] = [
                &[1, -1, 0, 0, 0],
                &[0, 2, -6, 10, -5],
                &[0, 0, 7, -12, 6],
                &[0, 0, 0, 3, -2],
            ];
            assert_eq!(rt; frame.dim(), 4);
            assert_eq!(rt; frame.columns(), 5);
            assert!(rt; has_rows(&frame, &rows));
        }
        Err(_) => assert!(rt; false),
    }
    Ok(())
}

#[test]
fn makes_the_frame_of_two_systems(rt: HostRuntime) -> Result<(), Fail> {
    let alloc = rt.alloc();
    match frame_of(
        alloc,
        &two_systems(alloc, 4, &[1, 1, 1, 1], 2, &[1, 1, 0, 0])?,
    ) {
        Ok(frame) => assert!(rt; has_rows(&frame, &[&[1, -1, 0, 0], &[0, 0, 1, -1]])),
        Err(_) => assert!(rt; false),
    }
    Ok(())
}

#[test]
fn refuses_large_entries_and_other_dimensions(rt: HostRuntime) -> Result<(), Fail> {
    let alloc = rt.alloc();
    let large = frame_of(
        alloc,
        &one_system(alloc, 32_015, &[8_000, 8_001, 8_002, 8_004, 8])?,
    );
    assert!(rt; matches!(large, Err(FrameFault::Entry(64_000_000_000_000))));
    let none = frame_of(alloc, &two_systems(alloc, 2, &[1, 1], 3, &[1, 2])?);
    assert!(rt; matches!(none, Err(FrameFault::Dim(0))));
    let many = frame_of(alloc, &one_system(alloc, 8, &[1, 1, 1, 1, 1, 1, 1, 1])?);
    assert!(rt; matches!(many, Err(FrameFault::Dim(7))));
    Ok(())
}

#[test]
fn finds_coordinates_and_combinations(rt: HostRuntime) -> Result<(), Fail> {
    let alloc = rt.alloc();
    match frame_of(alloc, &one_system(alloc, 3, &[1, 1, 1])?) {
        Ok(frame) => {
            assert!(rt; has_rows(&frame, &[&[1, 0, -1], &[0, 1, -1]]));
            assert_eq!(rt; frame.columns(), 3);
            assert_eq!(rt; frame.dim(), 2);
            let point = Point::new(&[2, -5]).expect(&rt, "two entries");
            let mut out = [0_i128; 3];
            frame.from_frame(&point, &mut out);
            assert!(rt; out == [2, -5, 3]);
            assert!(rt; frame.to_frame(&[2, -5, 3]) == Coordinates::At(point));
            assert!(rt; frame.to_frame(&[2, -5, 4]) == Coordinates::Outside);
        }
        Err(_) => assert!(rt; false),
    }
    Ok(())
}

#[test]
fn tells_that_a_coordinate_is_large(rt: HostRuntime) -> Result<(), Fail> {
    let alloc = rt.alloc();
    let systems = two_systems(
        alloc,
        10_401,
        &[2_051, 3_640, 4_586, 124],
        13_728,
        &[4_983, 4_030, 3_903, 812],
    )?;
    match frame_of(alloc, &systems) {
        Ok(frame) => {
            assert_eq!(rt; frame.columns(), 4);
            // its coordinates are 29 and 1,653,874,119
            assert!(rt; frame.to_frame(&[1_508, -2_184, 1_168, -4_029]) == Coordinates::Large);
        }
        Err(_) => assert!(rt; false),
    }
    Ok(())
}
