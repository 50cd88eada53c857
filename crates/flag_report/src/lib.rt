//! What the program prints of outcomes, of what was counted, and of certificates.
//!
//! `styles` has what is printed in each style, that in JSON by `json_report`, and below it a module for each other style. Of the parts of a
//! block `findings` has what is found about a position, `scans` from where on a game was dead, `results` the result of a game, `mates` the
//! shortest mates, `plies` the moves of a game, and `totals` the last line. `cert_reports` has the lines on certificates that were checked.
//! Each call that gives a text takes memory for it, and its only error is want of memory.
#![tactic(auto)]

mod cert_reports;
mod findings;
mod mates;
mod plies;
mod results;
mod scans;
mod styles;
mod totals;

pub use cert_reports::{accepted_line, failing_line, misfit_line};
pub use styles::{Subject, put, put_summary};
