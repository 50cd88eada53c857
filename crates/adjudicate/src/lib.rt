//! The one call that reads an input, judges its items and writes the report.
//!
//! `endings` has how a run ends, `writing` how what is printed goes out, `reports` the loop over the items of a report, `jobs` where the items
//! of each job come from, `correcting` the games with the right results, `checking` the check of a certificate, `commands` what each order
//! does, `top` the call `run`, and `alone` the same call without a runtime.
#![tactic(auto)]

mod alone;
mod checking;
mod commands;
mod correcting;
mod endings;
mod jobs;
mod reports;
mod top;
mod writing;

pub use alone::run_alone;
pub use cha_decide::{decide, scan_back};
pub use cha_verdict::{Decision, Limits};
pub use cha_words::{Order, parse};
pub use endings::Status;
pub use top::run;
