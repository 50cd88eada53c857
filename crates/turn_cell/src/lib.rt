//! A value at which passes take turns, in as many threads as there are passes.
//!
//! `object` has what such a value is, `cells` the cell and its passes, and `turns` the calls, and `law` what holds of a pass
//! at any time. Inside, `views` has what the rule of a cell knows of a pass and what the cell's slot holds, `rule` that rule
//! and the kinds of steps under it, and `opening`, `taking` and `sharing` the steps that the calls are made of.
#![tactic(auto)]

mod cells;
mod law;
mod object;
mod opening;
mod rule;
mod sharing;
mod taking;
mod turns;
mod views;

pub use cells::{Pass, Still, TurnCell};
pub use law::a_pass_knows_one_history;
pub use object::{Entry, Object, TakenBack};
