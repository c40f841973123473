//! Tests of small weights.
use crate::{IpSearch, is_ip, systems_of_degree};
use lattice_core::{NoMemory, WeightSystem};
use std::test::Fail;

/// Whether the systems have these weights, in order.
fn have_weights(systems: &[WeightSystem], lists: &[[u64; 4]]) -> bool {
    systems.len() == lists.len()
        && systems.iter().zip(lists).all(|(system, list)| system.weights.as_slice()
            == list.as_slice())
}

#[test]
fn weights_with_an_interior_point_are_a_system(rt: HostRuntime) -> Result<(), Fail> {
    assert!(rt; is_ip(rt.alloc(), &[1, 1])?);
    assert!(rt; is_ip(rt.alloc(), &[1, 1, 1])?);
    assert!(rt; is_ip(rt.alloc(), &[1, 2, 3])?);
    assert!(rt; is_ip(rt.alloc(), &[1, 1, 1, 1, 1])?);
    assert!(rt; !is_ip(rt.alloc(), &[1, 1, 3])?);
    assert!(rt; !is_ip(rt.alloc(), &[2, 1, 3])?);
    assert!(rt; !is_ip(rt.alloc(), &[2, 2, 2])?);
    Ok(())
}

// These are the first of the 95 families of K3 surfaces in weighted projective spaces.
#[test]
fn systems_of_a_degree_are_listed_in_order(rt: HostRuntime) -> Result<(), Fail> {
    let alloc = rt.alloc();
    assert!(rt; have_weights(&systems_of_degree(alloc, 4, 3)?, &[]));
    assert!(rt; have_weights(&systems_of_degree(alloc, 4, 4)?, &[[1, 1, 1, 1]]));
    assert!(rt;
        have_weights(
            &systems_of_degree(alloc, 4, 6)?,
            &[[1, 1, 1, 3], [1, 1, 2, 2]]
        )
    );
    assert!(rt;
        have_weights(
            &systems_of_degree(alloc, 4, 8)?,
            &[[1, 1, 2, 4], [1, 2, 2, 3]]
        )
    );
    assert!(rt; have_weights(&systems_of_degree(alloc, 4, 11)?, &[[1, 2, 3, 5]]));
    let twelve = systems_of_degree(alloc, 4, 12)?;
    assert!(rt;
        have_weights(
            &twelve,
            &[
                [1, 1, 4, 6],
                [1, 2, 3, 6],
                [1, 2, 4, 5],
                [1, 3, 4, 4],
                [2, 2, 3, 5],
                [2, 3, 3, 4],
            ]
        )
    );
    Ok(())
}

/// Whether the search gives these weights next, or, where there are none, nothing.
fn gives(search: &mut IpSearch, weights: &[u64]) -> Result<bool, NoMemory> {
    match search.next()? {
        Some(system) => Ok(system.weights.as_slice() == weights),
        None => Ok(weights.is_empty()),
    }
}

#[test]
fn search_goes_from_degree_to_degree(rt: HostRuntime) -> Result<(), Fail> {
    let mut search = IpSearch::new(rt.alloc(), 2, 1, 7)?;
    assert!(rt; gives(&mut search, &[1, 1, 1])?);
    assert!(rt; gives(&mut search, &[1, 1, 2])?);
    assert!(rt; gives(&mut search, &[1, 2, 3])?);
    assert!(rt; gives(&mut search, &[])?);
    assert!(rt; gives(&mut search, &[])?);
    Ok(())
}

// There are 95 of them, and the last has the degree 66.
#[test]
fn search_gives_the_families_of_k3_surfaces(rt: HostRuntime) -> Result<(), Fail> {
    let mut search = IpSearch::new(rt.alloc(), 3, 4, 66)?;
    for _ in 0..94 {
        assert!(rt; search.next()?.is_some());
    }
    assert!(rt; gives(&mut search, &[5, 6, 22, 33])?);
    assert!(rt; gives(&mut search, &[])?);
    Ok(())
}
