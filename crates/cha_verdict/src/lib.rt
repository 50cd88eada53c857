//! What is said of a side, and what each verdict means.
//!
//! `verdicts` has the verdict on a side, `decisions` the verdicts on both, `scans` from where on a game was dead, and `law` what
//! true verdicts cannot miss and what a sound scan shows. What a search may spend is handed on from `cha_limits`.
#![tactic(auto)]

mod decisions;
mod law;
mod scans;
mod verdicts;

pub use cha_limits::Limits;
pub use decisions::{Decision, are_dead};
pub use law::{sound_is_complete, sound_scan_shows};
pub use scans::{EarlierCerts, Edge, Scan};
pub use verdicts::{Verdict, is_undecided, is_unwinnable, is_winnable};
