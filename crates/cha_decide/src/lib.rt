//! What is found about both sides of a position, and from where on a game was dead.
//!
//! `deciding` has how the verdicts on both sides are found, `sides` the verdict on one side, `unaided` what is found of it without
//! a crew, `showing` the certificates that a side cannot mate, `searching` the searches of a crew, one after the other, and
//! `scanning` the way back through a game to the earliest position that is shown dead.
#![tactic(auto)]

mod deciding;
mod scanning;
mod searching;
mod showing;
mod sides;
mod unaided;

pub use deciding::decide;
pub use scanning::scan_back;
pub use unaided::quick;
