//! Items that are judged side by side, by threads, as far as no crew is needed for them.
//!
//! `cuts` has what an input is made of before it is read, `progress` how far the work on one item has come and what finishes it, `ahead`
//! the work on one item that needs no crew, `parts` items on which one thread works, and `hands` who does such work, and checks
//! certificates: threads, or the one that asks.
#![tactic(auto)]

mod ahead;
mod cuts;
mod hands;
mod parts;
mod progress;

pub use cuts::{Cut, ItemKind, Purpose};
pub use hands::Hands;
pub use parts::{GoOn, Part, PartTask};
pub use progress::{Progress, finish};
