//! Rows in a cache by their keys, as long as there is memory for it.

ghost use Rattle.std.specs.Prelude.{◌≡◌, IfOk, IfErr};
ghost use Rattle.cha_fact.specs.Entries.{IsOfKey};
ghost use Rattle.shard_table.specs.ShardRows.{AreKeyed, rows_of};
ghost use Rattle.shard_table.specs.Shards.{Probes, Stores};

use cha_fact::{Key, Probe, Proved, Stored};
use lru::LruCache;
use std::alloc::Global;

/// Asks for a copy of the row of a key, which then is the most recently used. Where memory for the copy is refused nothing
/// changes.
pub(crate) fn probe(alloc: Global, cache: &mut LruCache<Key, Proved>, key: &Key) -> Probe
    requires { AreKeyed cache.old.entries }
    ensures keyed { AreKeyed cache.new.entries }
    ensures most { cache.new.cap ≡ cache.old.cap }
    ensures reply { Probes key.now (rows_of cache.old.entries) result (rows_of cache.new.entries) }
    ensures of_key { IsOfKey key.now result }
{
    match cache.peek(key) {
        Some(row) => {
            let Ok(found) = row.copy(alloc) else {
                return Probe::Refused;
            };
            cache.promote(key);
            Probe::Found(found)
        }
        None => Probe::Miss,
    }
}

/// Stores a row. Where there is no memory for a new key nothing changes, and the row comes back.
pub(crate) fn store(cache: &mut LruCache<Key, Proved>, row: Proved) -> Result<Stored, Proved>
    requires { AreKeyed cache.old.entries }
    ensures keyed { AreKeyed cache.new.entries }
    ensures most { cache.new.cap ≡ cache.old.cap }
    ensures reply { IfOk result (λ reply. Stores cache.old.cap row (rows_of cache.old.entries) reply (rows_of cache.new.entries)) }
    ensures refused { IfErr result (λ back. (back ≡ row) × (cache.new ≡ cache.old)) }
{
    let key = row.key();
    let rank = row.rank();
    // That there are no more rows than there may be.
    let _len = cache.len();
    match cache.push(key, row) {
        Ok(None) => Ok(Stored::Added),
        Ok(Some((last, old))) => {
            if last != key {
                return Ok(Stored::Evicted(last));
            }
            if old.rank() < rank {
                return Ok(Stored::Better);
            }
            let Ok(_) = cache.put(key, old) else {
                unreachable!()
            };
            Ok(Stored::Kept)
        }
        Err(failed) => {
            let (_, row) = failed.value;
            Err(row)
        }
    }
}
