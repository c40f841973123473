//! Points and affine functions with numbers of fixed width, their exact values, their orders, and the faults and limits that the
//! crates above share. It stands on `lattice_theory`, whose definitions its contracts cite, on `normal_bounds`, whose bounds keep
//! `combine` small, and on the kit's `arrayvec`.
//! Its central theorem: within the stated sizes no operation overflows, and each answers the exact integer of the definition.
#![tactic(auto)]

mod ascending;
mod combination;
mod divisors;
mod entries;
mod examples;
mod faults;
mod functional;
mod limits;
mod pairing;
mod point;
mod sizes;
mod value_widths;
mod weights;

pub use ascending::{ascending_functions, ascending_points};
pub use combination::combine;
pub use divisors::{gcd, primitive};
pub use entries::{narrowed, narrowed_entry};
pub use examples::combination_is_an_example;
pub use faults::{Fault, LimitName, NoMemory, Refusal};
pub use functional::Functional;
pub use limits::{
    MOST_COORDINATE, MOST_COORDINATES, MOST_DEGREE, MOST_DEGREE_PRODUCT, MOST_FACETS,
    MOST_FRAME_ENTRY, MOST_MONOMIALS, MOST_NUMBERS, MOST_POINTS, MOST_SYSTEMS, MOST_VERTICES,
    MOST_WEIGHTS, size_limit,
};
pub use pairing::pair;
pub use point::Point;
pub use sizes::size_of;
pub use value_widths::{Width, width_of};
pub use weights::WeightSystem;
