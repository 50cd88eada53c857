//! What holds of a shard after any calls, and of a pass at any time.

ghost use Rattle.std.specs.Prelude.{◌≡◌, ℕ, List, ◌<◌, ◌↔◌, IsTrue};
ghost use Rattle.cha_fact.specs.declared.key.Key.{Key};
ghost use Rattle.cha_fact.specs.Entries.{Entry};
ghost use Rattle.shard_table.specs.ShardRows.{Rows};
ghost use Rattle.shard_table.specs.Shards.{same_key, IsReplay, AreRows, empty, StoresTruths};
ghost use Rattle.shard_table.specs.Tables.{IsOfTable, KnowsWell};

use crate::table::{Table, TablePass};

/// The law: after any calls of a new shard there are no more rows than there may be, their keys differ, and each is true,
/// where each row that was given was true, as the type of rows promises.
pub fn any_calls_leave_a_shard()
    ensures { (entries : ℕ) (history : List Entry) (last : Rows) → 0 < entries → StoresTruths history → IsReplay (empty entries) history last → AreRows entries last.rows }
{}

/// The law: a row is found by its whole key.
pub fn keys_are_compared_whole()
    ensures { (a b : Key) → IsTrue (same_key a b) ↔ (a ≡ b) }
{}

/// The law: what a pass of a table has seen at each shard is one legal history from the empty shard, and the entries there
/// under its number are those that it made.
pub fn a_pass_knows_one_history(table: &Table, pass: &TablePass)
    requires { IsOfTable table.now pass.now }
    ensures { KnowsWell table.now pass.now }
{}
