//! The positions of an exploration, named by number, and which of them wait to be expanded.
//!
//! `store` has the positions and what waits, `origin` where a position came from, `lines` the line that led there, `spot`
//! positions as keys of a table, `chains` the lists of waiting names, linked by index, and `popping` how the next of them is
//! taken.
#![tactic(auto)]

mod chains;
mod lines;
mod origin;
mod popping;
mod spot;
mod store;

pub use cha_list::Steps;
pub use chains::Chains;
pub use origin::Origin;
pub use store::Store;
