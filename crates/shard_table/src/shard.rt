//! A list of true facts, the most recently used first.

ghost use Rattle.std.specs.Prelude.{◌≡◌, ◌≢◌, ◌≤◌, [], IfOk};
ghost use Rattle.cha_fact.specs.Entries.{IsOfKey};
ghost use Rattle.shard_table.specs.Shards.{Probes, Stores};

use crate::row_list::RowList;
use cha_fact::{Key, Probe, Proved, Stored};
use cha_list::NoMemory;
use std::alloc::Global;
use std::marker::Model;

/// A bounded list of facts, each under its own key, the most recently used first. Where it is full and a new key comes, the fact
/// that was used longest ago is evicted.
///
/// Contracts see the list, and how many rows it may have. Room for all of them is made with the shard, so that each row that
/// is given is kept. They lie in a cache that takes memory as it fills; where it is refused some, they move into that room,
/// where a look-up goes row by row. A shard is one word, so that it is moved fast where passes take turns at it.
#[derive(Drop)]
pub struct Shard {
    list: Box<RowList>,
}

impl Model for Shard {
    ghost use Rattle.shard_table.specs.ShardRows.{Rows};

    ghost Value = { Rows };

    ghost view = { λ s. s.list.value };
}

impl Shard {
    /// The shard without rows, with room for as many as `entries`.
    pub fn new(alloc: Global, entries: u32) -> Result<Shard, NoMemory>
        requires some { 1 ≤ entries }
        requires few { entries ≤ 65536 }
        ensures { IfOk result (λ shard. shard ≡ record { rows = []; entries = entries }) }
    {
        let list = RowList::new(alloc, entries)?;
        let list = Box::new(alloc, list)?;
        Ok(Shard { list })
    }

    /// Asks for the row of a key, which then is the most recently used. It takes memory for the line of a mate alone; where
    /// that is refused the answer says so, and nothing changes.
    pub fn probe(&mut self, key: &Key) -> Probe
        ensures reply { Probes key.now self.old.rows result self.new.rows }
        ensures of_key { IsOfKey key.now result }
        ensures entries { self.new.entries ≡ self.old.entries }
    {
        self.list.probe(key)
    }

    /// Stores a row. One under the same key is replaced only by a row that says more. It is never dropped, even where memory is
    /// refused.
    pub fn store(&mut self, row: Proved) -> Stored
        ensures reply { Stores self.old.entries row self.old.rows result self.new.rows }
        ensures kept { result ≢ Stored.Dropped }
        ensures entries { self.new.entries ≡ self.old.entries }
    {
        self.list.store(row)
    }

    /// How many rows it may have.
    pub fn entries(&self) -> u32
        ensures { result ≡ self.now.entries }
    {
        self.list.entries()
    }
}
