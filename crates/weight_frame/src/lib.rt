//! The frame of a weight lattice, and the coordinates of lattice vectors in it. It stands on `lattice_core` for weight systems and points, on
//! the vectors of `lattice_theory`, and on the kit's `arrayvec`. Its central theorem: every vector of the lattice is exactly one integer
//! combination of the frame, and every integer combination of the frame is in the lattice.
#![tactic(auto)]

mod coordinates;
mod exchange;
mod frame;
mod laws;
mod multiples;
mod multipliers;
mod systems;
mod values;
mod vector;

pub use coordinates::Coordinates;
pub use frame::{Frame, FrameFault, frame_of};
pub use laws::{
    frame_exists, frame_is_basis, frame_is_refused_for_nothing, frame_is_unique, frame_keeps_order,
    steps_are_bounded,
};

#[cfg(test)]
mod tests;
