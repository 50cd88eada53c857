//! What a search may spend.
//!
//! `limits` has the four numbers, each in its range by its type.
#![tactic(auto)]

mod limits;

pub use limits::Limits;
