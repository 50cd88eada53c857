//! The exploration of all that can be reached from a position, guided, until a mate is met, nothing waits, or as many
//! positions were expanded as are allowed.
//!
//! `explored` has what an exploration answers, `region` the positions that were met, `lasting` the moves after which a
//! position is looked at by its material and its sets, `taking` how the next one is taken, `expanding` how it is
//! expanded, `certified` the certificate of a whole region, `known` what a place that keeps facts knows, and `exploring`
//! the exploration.
#![tactic(auto)]

mod certified;
mod expanding;
mod explored;
mod exploring;
mod known;
mod lasting;
mod region;
mod taking;

pub use explored::Explored;
pub use exploring::explore;
