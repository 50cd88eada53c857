//! A bounded list of true facts, the most recently used first, and a table of eight such lists at which threads take turns.
//!
//! `shard` has the list and its two calls, `row_list` what it keeps, `cached` and `listed` the two ways in which it does so, `shard_object` the list as a value at which passes take turns, `place` the
//! list as a place that keeps facts, and `law` what holds after any calls, and of a pass at any time. `table` has the table and its passes,
//! `turns` a probe and a store there, and `passes` how a table is made, its passes split off and taken back, and how it
//! ends; `eight` takes an array of eight apart.
#![tactic(auto)]

mod cached;
mod eight;
mod law;
mod listed;
mod passes;
mod place;
mod row_list;
mod shard;
mod shard_object;
mod table;
mod table_place;
mod turns;

pub use law::{a_pass_knows_one_history, any_calls_leave_a_shard, keys_are_compared_whole};
pub use shard::Shard;
pub use table::{StillOut, Table, TablePass};
pub use table_place::TableFacts;
pub use turns::shard_of;
