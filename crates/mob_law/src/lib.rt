//! The law that closed mobility sets without a mate bound every series of legal moves.
//!
//! `bound` has the law, and that it speaks of something, and `following` that the rules of castling and of the double step
//! follow from the others. Their definitions stand in `specs`, and their proofs in `proofs`.
#![tactic(auto)]

mod bound;
mod following;

pub use bound::{closed_sets_bound, closed_sets_exist, explored_are_reached};
pub use following::{castling_follows, double_step_follows};
