//! What the blocks of a report say in chess alone: of mobility sets and certificates nothing.
//!
//! `laws` has what a sound decision means, what the report of sound outcomes says of its items, and of which position a block speaks.
#![tactic(auto)]

mod laws;

pub use laws::{a_block_is_true_of_its_fen, sound_decisions_mean};
