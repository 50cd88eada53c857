//! Mobility sets, checked against a position: whether they are closed, and whether they leave a mate in reach.
//!
//! The rules of closed sets stand as steps of sets of squares: `ground` has what the rules look at, `single_steps`
//! where men aim by one step or a jump, `ranks` where pawns are promoted, `goes` where men of a kind go from a set of
//! squares, as far as fixed and guarded squares let them, `frees` which origins become loose, and `rules` the law that
//! these are the rules of closed sets.
//!
//! The checks: `closing` has the test of closed sets; `mates_in_reach` the search for a mate, with `scene`, `attacks`,
//! `near` and `ring`; `bound` both together, and `groups` entries of sets.
#![tactic(auto)]

mod attacks;
mod bound;
mod closing;
mod frees;
mod goes;
mod ground;
mod groups;
mod mates_in_reach;
mod near;
mod ranks;
mod ring;
mod rules;
mod scene;
mod single_steps;

pub use bound::proves_unwinnable;
pub use closing::closed;
pub use frees::freed;
pub use goes::{comes, ends};
pub use ground::{Ground, SideGround};
pub use mates_in_reach::no_mate;
pub use rules::rules_on_the_ground;
pub use single_steps::spread;
