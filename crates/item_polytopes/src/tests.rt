//! The polytopes of a weight line and of matrices.

ghost use Rattle.std.specs.Prelude.{IfOk};
ghost use Rattle.lattice_core.specs.Weights.{weighted_all, AreWellFormed};
ghost use Rattle.palp_input.specs.Grammar.{listed};
ghost use Rattle.palp_input.specs.Items.{IsItem};

use crate::{kind_of_item, kind_of_systems, polytope_of_item, polytope_of_systems};
use dual_pair::Kind;
use lattice_core::WeightSystem;
use palp_input::{Item, Matrix};
use std::alloc::Global;
use std::test::Fail;

/// The weights of the projective plane.
fn plane(alloc: Global) -> Result<Vec<WeightSystem>, Fail>
    ensures { IfOk result (λ systems. AreWellFormed (weighted_all systems.items)) }
{
    Ok(vec![in alloc;
        WeightSystem {
            degree: 3,
            weights: vec![in alloc; 1, 1, 1]?,
        },
    ]?)
}

/// A triangle that isn't reflexive.
fn triangle(alloc: Global) -> Result<Item, Fail>
    ensures { IfOk result (λ item. IsItem (listed item)) }
{
    let entries = vec![in alloc; -1, -1, 3, -1, -1, 2]?;
    Ok(Item::Points(Matrix {
        lines: 3,
        columns: 2,
        entries,
    }))
}

#[test]
fn makes_the_polytope_of_a_weight_line(rt: HostRuntime) -> Result<(), Fail> {
    let alloc = rt.alloc();
    let polytope = polytope_of_systems(alloc, &plane(alloc)?).expect(&rt, "a polytope");
    assert_eq!(rt; polytope.points().len(), 10);
    assert_eq!(rt; polytope.facets().len(), 3);
    Ok(())
}

#[test]
fn makes_the_polytope_of_a_matrix(rt: HostRuntime) -> Result<(), Fail> {
    let alloc = rt.alloc();
    let polytope = polytope_of_item(alloc, &triangle(alloc)?).expect(&rt, "a polytope");
    assert_eq!(rt; polytope.points().len(), 11);
    Ok(())
}

#[test]
fn gives_a_reflexive_polytope_its_dual(rt: HostRuntime) -> Result<(), Fail> {
    let alloc = rt.alloc();
    let Kind::Reflexive(pair) = kind_of_systems(alloc, &plane(alloc)?).expect(&rt, "a polytope")
    else {
        return Err(Fail::new("another polytope"));
    };
    assert_eq!(rt; pair.n().points().len(), 4);
    Ok(())
}

#[test]
fn gives_no_dual_to_another_polytope(rt: HostRuntime) -> Result<(), Fail> {
    let alloc = rt.alloc();
    let Kind::Other(polytope) = kind_of_item(alloc, &triangle(alloc)?).expect(&rt, "a polytope")
    else {
        return Err(Fail::new("a reflexive polytope"));
    };
    assert_eq!(rt; polytope.facets().len(), 3);
    Ok(())
}
