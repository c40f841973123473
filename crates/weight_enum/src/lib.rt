//! Interior-point weight systems: whether weights are one, and all of a range of degrees, in order.
//!
//! The crate stands on `weight_tails` for the points by which a system is told, on `weight_certificates` for functions that refute it, on `hull` for
//! their facets, and on the laws of `interior_point_theory`. Its central theorem: a search gives exactly the interior-point systems of its range of
//! degrees, each once, by degree and then by weights; `is_ip` answers true exactly for such systems.
#![tactic(auto)]

mod certificates;
mod cuts;
mod degrees;
mod interior;
mod laws;
mod primitive;
mod refuters;
mod search;
mod simplex;
mod weights;

pub use degrees::systems_of_degree;
pub use interior::is_ip;
pub use laws::first_systems_law;
pub use search::IpSearch;
pub use weights::{MOST_DEGREE_OF_FIVE, MOST_DEGREE_OF_SIX};

#[cfg(test)]
mod tests;
