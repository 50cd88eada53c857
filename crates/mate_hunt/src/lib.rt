//! The hunt: a search that follows a guide to a mate. The line that it finds is played once more before it is answered.
//!
//! Nothing is claimed of the search itself. `hunts` has the hunt with its contract, `choice` which moves are followed, `search`
//! the search, `nodes` the positions that it has met, `mating` the moves that mate, `scene` what they are seen by, and `cutting`
//! cuts a line where two plies mate.
#![tactic(auto)]

mod choice;
mod cutting;
mod hunts;
mod mating;
mod nodes;
mod scene;
mod search;

pub use choice::Width;
pub use hunts::hunt;
