//! Rounds of the bounded search, one ply deeper each, whose root moves workers share out.
//!
//! `answers` has what the rounds answer, `task` what is to do in one round, `work` what a worker leaves of it, `nowhere` a place
//! of facts that keeps none, `share` one worker's part of a round, `open_moves` which root moves are still to be searched and
//! `helping` what a worker that is done does for others, `workers` a crew of them as a whole, `alone` the crew that needs no
//! thread, `nobody` the crew that has nobody who searches, `many` the crew of threads at one table and `each` how those threads
//! are made, `hired` and `staff` with `on_demand` one that is made when it is first called on, `dismissing` its end and that of
//! the table, `gather` what the works of a round come to, and `deepening` the rounds one after the other.
#![tactic(auto)]

mod alone;
mod answers;
mod deepening;
mod dismissing;
mod each;
mod gather;
mod helping;
mod hired;
mod many;
mod nobody;
mod nowhere;
mod on_demand;
mod open_moves;
mod share;
mod staff;
mod task;
mod work;
mod workers;

pub use alone::Alone;
pub use answers::RoundsEnd;
pub use cha_limits::Limits;
pub use deepening::rounds;
pub use dismissing::{close, dismiss};
pub use gather::gathered;
pub use hired::Hired;
pub use many::{Many, crew};
pub use nobody::Nobody;
pub use nowhere::Nowhere;
pub use on_demand::OnDemand;
pub use staff::Staff;
pub use task::RoundTask;
pub use work::{RootMate, Work, Worker};
pub use workers::Crew;
