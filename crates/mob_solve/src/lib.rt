//! The least closed sets of a position, and whether any closed sets show that a side cannot win.
//!
//! `reach` has the sets as they grow, `reached` the ground that they make, `filling` squares filled by steps, `man_rules`
//! the rules for a man, `rule_passes` all of them in turn, `closure` the least closed sets, `entering` how they are
//! handed out, `weak` for which sides they often show that they cannot mate, and `verdicts` what they show.
#![tactic(auto)]

mod closure;
mod entering;
mod filling;
mod man_rules;
mod reach;
mod reached;
mod rule_passes;
mod verdicts;
mod weak;

pub use closure::least_closed_sets;
pub use verdicts::{least_show, static_verdict};
pub use weak::is_weak;
