//! Tables of the faces of a relation "tight": the faces by rank and in order, each with the words of its members, the words of its dual face, and its
//! rank. It stands on `incidence`, whose rows tell the relation, on `face_closing`, which closes and ranks rows of bits, on `face_theory` and on
//! `bit_pool`. All memory of a table is taken when it is opened; building one takes none.
//!
//! Its central theorem: a table that was built has exactly the faces of the relation that the rows tell, with their dual faces and ranks, in order
//! (`FaceTable::build`).
#![tactic(auto)]

mod build;
mod fill;
mod laws;
mod list;
mod rows;
mod table;

pub use laws::{face_counts_are_single, table_counts_faces, top_rank_bound};
pub use table::{BuildFault, FaceTable};

#[cfg(test)]
mod tests;
