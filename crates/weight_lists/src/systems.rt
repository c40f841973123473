//! The polytope of a weight system.
ghost use Rattle.std.specs.Prelude.{MatchResult};
ghost use Rattle.lattice_core.specs.Stops.{Stops};
ghost use Rattle.lattice_core.specs.Weights.{weighted};
ghost use Rattle.interior_point_theory.specs.Interior.{IsInteriorPointSystem};
ghost use Rattle.item_polytopes.specs.Kinds.{HasPolytope, IsPolytopeRefusal, IsKind, IsKindRefusal};
ghost use Rattle.weight_lists.specs.Systems.{line_of};

use dual_pair::{Kind, Polytope};
use item_polytopes::{kind_of_systems, polytope_of_systems};
use lattice_core::{Fault, WeightSystem};
use std::alloc::Global;
use std::slice;

/// The polytope of an interior-point weight system, or its refusal.
pub(crate) fn polytope_of(alloc: Global, system: &WeightSystem) -> Result<Polytope, Fault>
    requires { IsInteriorPointSystem (weighted system.now) }
    ensures { MatchResult result
        (HasPolytope (line_of (weighted system.now)))
        (Stops (IsPolytopeRefusal (line_of (weighted system.now)))) }
{
    polytope_of_systems(alloc, slice::from_ref(system))
}

/// The polytope of an interior-point weight system, with its dual where it is reflexive, or its refusal.
pub(crate) fn kind_of(alloc: Global, system: &WeightSystem) -> Result<Kind, Fault>
    requires { IsInteriorPointSystem (weighted system.now) }
    ensures { MatchResult result
        (IsKind (line_of (weighted system.now)))
        (Stops (IsKindRefusal (line_of (weighted system.now)))) }
{
    kind_of_systems(alloc, slice::from_ref(system))
}
