//! The rows of a shard, and how they are kept.

ghost use Rattle.std.specs.Prelude.{◌≡◌, ◌≢◌, ◌≤◌, [], IfOk};
ghost use Rattle.cha_fact.specs.Entries.{IsOfKey};
ghost use Rattle.shard_table.specs.Shards.{Probes, Stores};

use crate::{cached, listed};
use cha_fact::{Key, Probe, Proved, Stored};
use cha_list::NoMemory;
use lru::LruCache;
use std::alloc::Global;
use std::marker::Model;
use std::num::NonZeroUsize;

/// The rows of a shard, as long as there is memory in a cache that takes it as it fills, and then in a list that has room for
/// all of them from the start, where a look-up goes row by row.
#[derive(Drop)]
pub(crate) struct RowList {
    cache: LruCache<Key, Proved>,
    listed: Vec<Proved>,
    entries: u32,
    alloc: Global,
}

impl Model for RowList {
    ghost use Rattle.std.specs.Prelude.{◌++◌};
    ghost use Rattle.std.specs.Vec.{vec_capacity};
    ghost use Rattle.shard_table.specs.ShardRows.{Rows, rows_of, AreKept};

    ghost Value = { Rows };

    ghost view = { λ s. record { rows = s.listed.items ++ rows_of s.cache.entries; entries = s.entries } };

    ghost invariant = { λ s. AreKept s.entries s.cache.cap s.cache.entries (vec_capacity s.listed) s.listed.items };
}

impl RowList {
    /// No rows, with room for as many as `entries`.
    pub(crate) fn new(alloc: Global, entries: u32) -> Result<RowList, NoMemory>
        requires some { 1 ≤ entries }
        requires few { entries ≤ 65536 }
        ensures { IfOk result (λ list. list ≡ record { rows = []; entries = entries }) }
    {
        let Some(most) = NonZeroUsize::new(entries as usize) else {
            unreachable!()
        };
        let listed = Vec::with_capacity(alloc, entries as usize)?;
        let cache = LruCache::sparse(alloc, most)?;
        Ok(RowList {
            cache,
            listed,
            entries,
            alloc,
        })
    }

    /// Asks for the row of a key.
    pub(crate) fn probe(&mut self, key: &Key) -> Probe
        ensures reply { Probes key.now self.old.rows result self.new.rows }
        ensures of_key { IsOfKey key.now result }
        ensures entries { self.new.entries ≡ self.old.entries }
    {
        if self.listed.is_empty() {
            return cached::probe(self.alloc, &mut self.cache, key);
        }
        listed::probe(self.alloc, &mut self.listed, key)
    }

    /// Stores a row.
    pub(crate) fn store(&mut self, row: Proved) -> Stored
        ensures reply { Stores self.old.entries row self.old.rows result self.new.rows }
        ensures kept { result ≢ Stored.Dropped }
        ensures entries { self.new.entries ≡ self.old.entries }
    {
        if self.listed.is_empty() {
            return match cached::store(&mut self.cache, row) {
                Ok(stored) => stored,
                Err(row) => {
                    listed::move_rows(&mut self.cache, &mut self.listed);
                    listed::store(&mut self.listed, self.entries, row)
                }
            };
        }
        listed::store(&mut self.listed, self.entries, row)
    }

    /// How many rows it may have.
    pub(crate) fn entries(&self) -> u32
        ensures { result ≡ self.now.entries }
    {
        self.entries
    }
}
