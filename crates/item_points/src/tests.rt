//! The points of items of each kind.

ghost use Rattle.std.specs.Prelude.{IfOk};
ghost use Rattle.lattice_core.specs.Weights.{weighted_all, AreWellFormed};
ghost use Rattle.palp_input.specs.Grammar.{listed};
ghost use Rattle.palp_input.specs.Items.{IsItem};

use crate::{points_of_item, points_of_matrix, points_of_systems};
use lattice_core::WeightSystem;
use palp_input::{Item, Matrix};
use std::alloc::Global;
use std::test::Fail;

/// The square as a matrix of 2 lines and 4 columns.
fn square(alloc: Global) -> Result<Matrix, Fail>
    ensures { IfOk result (λ matrix. IsItem (listed (Item.Points matrix))) }
{
    Ok(Matrix {
        lines: 2,
        columns: 4,
        entries: vec![in alloc; 1, 1, -1, -1, 1, -1, 1, -1]?,
    })
}

/// The weights of the projective plane.
fn plane(alloc: Global) -> Result<Vec<WeightSystem>, Fail>
    ensures { IfOk result (λ systems. AreWellFormed (weighted_all systems.items)) }
{
    Ok(vec![in alloc;
        WeightSystem {
            degree: 3,
            weights: vec![in alloc; 1, 1, 1]?,
        },
    ]?)
}

#[test]
fn answers_the_columns_of_a_matrix(rt: HostRuntime) -> Result<(), Fail> {
    let alloc = rt.alloc();
    let points = points_of_matrix(alloc, &square(alloc)?).expect(&rt, "points");
    assert_eq!(rt; points.len(), 4);
    assert_eq!(rt; points[1].entries(), [1, -1].as_slice());
    Ok(())
}

#[test]
fn answers_the_points_of_weights(rt: HostRuntime) -> Result<(), Fail> {
    let alloc = rt.alloc();
    let points = points_of_systems(alloc, &plane(alloc)?).expect(&rt, "points");
    assert_eq!(rt; points.len(), 10);
    Ok(())
}

#[test]
fn answers_the_points_of_an_item(rt: HostRuntime) -> Result<(), Fail> {
    let alloc = rt.alloc();
    let item = Item::Points(square(alloc)?);
    let points = points_of_item(alloc, &item).expect(&rt, "points");
    assert_eq!(rt; points.len(), 4);
    Ok(())
}
