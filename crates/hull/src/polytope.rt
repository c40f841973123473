//! Facets and vertices of points together.

ghost use Rattle.std.specs.Prelude.{◌≡◌, ◌≤◌, length, Err, IfOk, OnOk, IfErr};
ghost use Rattle.std.specs.List.{All};
ghost use Rattle.lattice_theory.specs.Size.{size};
ghost use Rattle.lattice_theory.specs.Hull.{AreVertices};
ghost use Rattle.lattice_theory.specs.Facet.{AreFacets};
ghost use Rattle.lattice_core.specs.declared.faults.Fault.TheVariants as Fault;
ghost use Rattle.lattice_core.specs.declared.limits.TheConstants.{MOST_FACETS, MOST_VERTICES};
ghost use Rattle.lattice_core.specs.Dimensions.{dimension_of};
ghost use Rattle.lattice_core.specs.PointLists.{ArePoints, AreSolidPoints};
ghost use Rattle.lattice_core.specs.Stops.{Stops};
ghost use Rattle.lattice_core.specs.ValueWidths.{IsWithin};
ghost use Rattle.hull.specs.Faults.{IsPolytopeRefusal};

use crate::facets::{solid, whole_hull};
use crate::vertices::all_vertices;
use lattice_core::{Fault, Functional, LimitName, MOST_FACETS, MOST_VERTICES, Point, Refusal};
use std::alloc::Global;

/// The facets and the vertices of points.
#[derive(Debug, Drop)]
pub struct Hull {
    /// The facets, each once, ordered by normal and then by constant.
    pub facets: Vec<Functional>,
    /// The vertices, each once, in lexicographic order.
    pub vertices: Vec<Point>,
}

/// All facets and all vertices of points with 1 to 6 coordinates. There is at least one point; points may repeat. Refused are, in this order,
/// points whose size is above the limit of their dimension (the size is told), flat points (with their flat function), points with more than 128
/// facets, and points with more than 128 vertices (their number is told). Without memory for the hull it is `NoMemory`; the first two refusals
/// need none. For the points' size S, a facet's normal has entries of at most (2S)^(n-1), and its constant is at most (2S)^(n-1) S.
/// Source: math/0204356, section 2.
pub fn hull_of(alloc: Global, points: &[Point]) -> Result<Hull, Fault>
    requires points { ArePoints points.now }
    ensures facets { IfOk result (λ hull. AreFacets (dimension_of points.now) points.now hull.facets.items) }
    ensures vertices { IfOk result (λ hull. AreVertices (dimension_of points.now) points.now hull.vertices.items) }
    ensures solid { OnOk result (AreSolidPoints points.now) }
    ensures few_facets { IfOk result (λ hull. length hull.facets.items ≤ MOST_FACETS) }
    ensures few_vertices { IfOk result (λ hull. length hull.vertices.items ≤ MOST_VERTICES) }
    ensures bounded { IfOk result (λ hull. All (IsWithin (dimension_of points.now) (size (dimension_of points.now) points.now)) hull.facets.items) }
    ensures refused { IfErr result (Stops (IsPolytopeRefusal (dimension_of points.now) points.now)) }
    ensures no_memory { result ≡ Err Fault.NoMemory → AreSolidPoints points.now }
{
    let width = solid(alloc, points)?;
    let (corners, facets) = whole_hull(alloc, points, width)?;
    if facets.len() > MOST_FACETS {
        return Err(Fault::Refused(Refusal::Limit(LimitName::Facets, facets.len() as u128)));
    }
    let vertices = all_vertices(alloc, &corners, &facets)?;
    if vertices.len() > MOST_VERTICES {
        return Err(Fault::Refused(Refusal::Limit(LimitName::Vertices, vertices.len() as u128)));
    }
    Ok(Hull { facets, vertices })
}
