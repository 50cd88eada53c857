//! The judging of one item: what is asked about it is found out, and the outcome is a value. No text is read or made here.
//!
//! `judges` says what a judge is, `verdicts` has the judge who decides whether sides can still mate, `mates` the one who lists
//! the shortest mates, and `plies` the one who tells the moves of games.
#![tactic(auto)]

mod judges;
mod mates;
mod plies;
mod verdicts;

pub use judges::Judge;
pub use mates::MatesJudge;
pub use plies::PliesJudge;
pub use verdicts::VerdictsJudge;
