//! The points of items within the limits.

ghost use Rattle.std.specs.Prelude.{◌≡◌, ◌*◌, length, IfOk, MatchResult};
ghost use Rattle.lattice_core.specs.Weights.{weighted_all, AreWellFormed};
ghost use Rattle.palp_input.specs.Grammar.{ListedWeights, ListedPoints, listed};
ghost use Rattle.palp_input.specs.Items.{IsItem};
ghost use Rattle.item_points.specs.Points.{HasPoints, IsPointsRefusal, AreItemPoints};
ghost use Rattle.lattice_core.specs.Stops.{Stops};

use crate::matrices::matrix_points;
use crate::sizes::size_above_limit;
use crate::weights::weight_points;
use lattice_core::{Fault, LimitName, Point, Refusal, WeightSystem};
use palp_input::{Item, Matrix};
use std::alloc::Global;

/// The points of a weight line, in order: those of its exponent vectors in the coordinates of its frame.
///
/// The line is refused exactly by the first limit that it exceeds of: 6 systems; 12 weights of each; a degree of 32,767; a product of all
/// degrees of 1,099,511,627,776; entries of 1,099,511,627,776 in the frame's recursion; 1 to 6 dimensions; 16,384 exponent vectors; the size
/// of the points (`size_limit`). Told is what exceeds the limit: the first degree above it, the number 16,385 of exponent vectors, and in
/// place of the size 1,073,741,825 where a coordinate is above 1,073,741,824. `NoMemory` may come at any step.
pub fn points_of_systems(alloc: Global, systems: &[WeightSystem]) -> Result<Vec<Point>, Fault>
    requires { AreWellFormed (weighted_all systems.now) }
    ensures points { MatchResult result
        (λ points. HasPoints (ListedWeights (weighted_all systems.now)) points.items)
        (Stops (IsPointsRefusal (ListedWeights (weighted_all systems.now)))) }
    ensures premises { IfOk result (λ points. AreItemPoints points.items) }
{
    let points = weight_points(alloc, systems)?;
    if let Some(told) = size_above_limit(&points) {
        return Err(Fault::Refused(Refusal::Limit(LimitName::Size, told)));
    }
    Ok(points)
}

/// The points of a matrix, in order: its lines where there are at least as many lines as columns, otherwise its columns.
///
/// The matrix is refused exactly by the first limit that it exceeds of: 1 to 6 dimensions, the smaller number of its header; 16,384 points,
/// the larger number; the size of the points (`size_limit`). Told is what exceeds the limit. `NoMemory` may come where the points find no
/// memory.
pub fn points_of_matrix(alloc: Global, matrix: &Matrix) -> Result<Vec<Point>, Fault>
    requires { length matrix.now.entries.items ≡ matrix.now.lines * matrix.now.columns }
    ensures points { MatchResult result
        (λ points. HasPoints (ListedPoints matrix.now.lines matrix.now.columns matrix.now.entries.items) points.items)
        (Stops (IsPointsRefusal (ListedPoints matrix.now.lines matrix.now.columns matrix.now.entries.items))) }
    ensures premises { IfOk result (λ points. AreItemPoints points.items) }
{
    let points = matrix_points(alloc, matrix)?;
    if let Some(told) = size_above_limit(&points) {
        return Err(Fault::Refused(Refusal::Limit(LimitName::Size, told)));
    }
    Ok(points)
}

/// The points of an item of a text, in order, or its refusal: as `points_of_systems` and `points_of_matrix` say.
pub fn points_of_item(alloc: Global, item: &Item) -> Result<Vec<Point>, Fault>
    requires { IsItem (listed item.now) }
    ensures points { MatchResult result
        (λ points. HasPoints (listed item.now) points.items)
        (Stops (IsPointsRefusal (listed item.now))) }
    ensures premises { IfOk result (λ points. AreItemPoints points.items) }
{
    match item {
        Item::Weights(systems) => points_of_systems(alloc, systems),
        Item::Points(matrix) => points_of_matrix(alloc, matrix),
    }
}
