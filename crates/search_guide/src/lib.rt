//! How near a position is to a mate, as a number below 64: an exploration takes up the position of the least number first.
//!
//! Nothing is claimed of how good a guide is. `choice` says which guides there are and `guiding` asks one of them, `corner` has the one
//! that brings the loser's king into a corner, `flights` the one that takes its squares away, and `balance` the one that does both.
//! `army` has the men of a side, `hopeless` the material that mates nowhere, `force` what the winner mates with, `pawns` the ways of pawns
//! to the last rank, `corners` how far a corner is from a mate in it, `kings` how far the kings are from such a mate, and `king_walks`
//! what king's steps reach.
#![tactic(auto)]

mod army;
mod balance;
mod choice;
mod corner;
mod corners;
mod flights;
mod force;
mod guiding;
mod hopeless;
mod king_walks;
mod kings;
mod pawns;

pub use choice::Guide;
pub use guiding::{guide, hopeful_guide};
