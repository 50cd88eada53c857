//! The lines of a report in JSON (RFC 8259): one for each outcome, and one for what was counted.
//!
//! `members` has the members of an object whose values are plain, `lines` lines of moves, `grounds` what a certificate rests on,
//! `verdicts` the verdict on a side, `results` the result of a game, `mates` the shortest mates, `plies` the moves of a game,
//! `outcomes` the line on an outcome, and `summaries` the last line.
#![tactic(auto)]

mod grounds;
mod lines;
mod mates;
mod members;
mod outcomes;
mod plies;
mod results;
mod summaries;
mod verdicts;

pub use grounds::Ground;
pub use outcomes::put_outcome_line;
pub use summaries::put_summary_line;
