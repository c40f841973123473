//! Facets and vertices of the hull of points with 1 to 6 coordinates. It stands on `hull_growth` for a hull that grows point by point, on
//! `lattice_core` for numbers and points, on `bit_rows`, on the laws of `elimination`, `facet_theory` and `ridge_theory` for what they mean, and on
//! `normal_bounds` for how large the numbers are. Its central theorem: `facets_of` gives exactly the facets of the definition, `vertices_of`
//! exactly the vertices, and `hull_of` both.
#![tactic(auto)]

mod bounds;
mod builder;
mod candidates;
mod differences;
mod facets;
mod flat;
mod functions;
mod kernel;
mod member;
mod outer;
mod planes;
mod polytope;
mod reduction;
mod simplex;
mod spread;
mod tight_rows;
mod vertices;

pub use bounds::facets_bounded;
pub use builder::HullBuilder;
pub use facets::{all_facets, facets_of};
pub use flat::flat_function;
pub use planes::hyperplane;
pub use polytope::{Hull, hull_of};
pub use vertices::vertices_of;

#[cfg(test)]
mod tests;
