//! Polytopes of items, and their duals.
ghost use Rattle.std.specs.Prelude.{MatchResult};
ghost use Rattle.lattice_core.specs.Stops.{Stops};
ghost use Rattle.lattice_core.specs.Weights.{weighted_all, AreWellFormed};
ghost use Rattle.palp_input.specs.Grammar.{ListedWeights, listed};
ghost use Rattle.palp_input.specs.Items.{IsItem};
ghost use Rattle.item_polytopes.specs.Kinds.{HasPolytope, IsPolytopeRefusal, IsKind, IsKindRefusal};

use dual_pair::{DualPair, Kind, Polytope};
use item_points::{points_of_matrix, points_of_systems};
use lattice_core::{Fault, WeightSystem};
use palp_input::Item;
use std::alloc::Global;

/// The polytope of a weight line: that of its points, which are all lattice points of their hull and aren't sought again.
///
/// The line is refused by the first limit that its points exceed, and then by the first one that their polytope exceeds of: flat points, 128
/// facets, 128 vertices; it has few lattice points. `NoMemory` may come at any step.
pub fn polytope_of_systems(alloc: Global, systems: &[WeightSystem]) -> Result<Polytope, Fault>
    requires { AreWellFormed (weighted_all systems.now) }
    ensures { MatchResult result
        (HasPolytope (ListedWeights (weighted_all systems.now)))
        (Stops (IsPolytopeRefusal (ListedWeights (weighted_all systems.now)))) }
{
    let points = points_of_systems(alloc, systems)?;
    Polytope::of_lattice_points(alloc, points)
}

/// The polytope of an item of a text: that of its points.
///
/// The item is refused by the first limit that its points exceed, and then by the first one that their polytope exceeds of: flat points, 128
/// facets, 128 vertices, 16,384 lattice points. `NoMemory` may come at any step.
pub fn polytope_of_item(alloc: Global, item: &Item) -> Result<Polytope, Fault>
    requires { IsItem (listed item.now) }
    ensures { MatchResult result (HasPolytope (listed item.now)) (Stops (IsPolytopeRefusal (listed item.now))) }
{
    match item {
        Item::Weights(systems) => polytope_of_systems(alloc, systems),
        Item::Points(matrix) => {
            let points = points_of_matrix(alloc, matrix)?;
            Polytope::of(alloc, &points)
        }
    }
}

/// The polytope of a weight line, with its dual where it is reflexive; or its refusal, at the limits on the polytope, or on the dual: the size of
/// its vertices, and 16,384 lattice points.
pub fn kind_of_systems(alloc: Global, systems: &[WeightSystem]) -> Result<Kind, Fault>
    requires { AreWellFormed (weighted_all systems.now) }
    ensures { MatchResult result
        (IsKind (ListedWeights (weighted_all systems.now)))
        (Stops (IsKindRefusal (ListedWeights (weighted_all systems.now)))) }
{
    let polytope = polytope_of_systems(alloc, systems)?;
    DualPair::of(alloc, polytope)
}

/// The polytope of an item of a text, with its dual where it is reflexive; or its refusal, at the limits on the polytope, or on the dual: the size
/// of its vertices, and 16,384 lattice points.
pub fn kind_of_item(alloc: Global, item: &Item) -> Result<Kind, Fault>
    requires { IsItem (listed item.now) }
    ensures { MatchResult result (IsKind (listed item.now)) (Stops (IsKindRefusal (listed item.now))) }
{
    let polytope = polytope_of_item(alloc, item)?;
    DualPair::of(alloc, polytope)
}
