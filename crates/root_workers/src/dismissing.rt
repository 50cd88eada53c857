//! The end of a crew of threads and of its table.

ghost use Rattle.std.specs.Prelude.{◌≡◌, ◌+◌, length};
ghost use Rattle.shard_table.specs.Tables.{IsOfTable, IsFirstPass, KnowsWell, splits_of, joins_of};
ghost use Rattle.root_workers.specs.Crews.{IsCrew};
ghost use Rattle.root_workers.specs.Histories.{IsOneHistory, EndsAsOne};

use crate::work::Worker;
use shard_table::{Shard, Table, TablePass};

/// Takes the passes of all workers back into the first pass of their table, off which they were split. It takes no memory and
/// does not wait.
///
/// What each worker has seen at each shard is then the beginning of one history, which the first pass knows, and the entries
/// there under the number of its pass are those that it made.
pub fn dismiss(table: &Table, pass: &mut TablePass, crew: Vec<Worker>)
    requires of { IsOfTable table.now pass.old }
    requires first { IsFirstPass pass.old }
    requires crew { IsCrew table.now crew.items }
    ensures of { IsOfTable table.now pass.new }
    ensures first { IsFirstPass pass.new }
    ensures one_history { IsOneHistory pass.old crew.items pass.new }
    ensures knows { KnowsWell table.now pass.new }
{
    let mut left = crew;
    while let Some(worker) = left.pop() {
        table.join(pass, worker.pass);
    }
}

/// Takes the passes of all workers back and closes the table. It takes no memory and does not wait.
///
/// The shards are what the calls of all workers leave, each shard by one history in which each worker's calls stand in the order
/// that it saw.
pub fn close(table: Table, pass: TablePass, crew: Vec<Worker>) -> [Shard; 8]
    requires of { IsOfTable table pass }
    requires first { IsFirstPass pass }
    requires crew { IsCrew table crew.items }
    requires all { splits_of pass ≡ joins_of pass + length crew.items }
    ensures { EndsAsOne table pass crew.items result }
{
    let mut first = pass;
    dismiss(&table, &mut first, crew);
    match table.close(first) {
        Ok(shards) => shards,
        Err(_) => unreachable!(),
    }
}
