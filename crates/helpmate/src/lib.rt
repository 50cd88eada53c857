//! The search for a mate within a number of plies, with a place that keeps facts.
//!
//! `answers` has what a round answers, `deciding` what a fact decides by itself, `search` the search of a position to a
//! depth, `last` the same to one ply or none, and `rounds` a round with how many positions it expanded.
#![tactic(auto)]

mod answers;
mod deciding;
mod last;
mod rounds;
mod search;

pub use answers::{RoundAnswer, RoundDone};
pub use deciding::decided;
pub use rounds::round;
