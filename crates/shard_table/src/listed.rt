//! Rows in a list that has room for them from the start. It takes no memory but for copies, and searches row by row.

ghost use Rattle.std.specs.Prelude.{◌≡◌, ◌<◌, ◌≤◌, [], ◌∷◌, length, None, MatchOption};
ghost use Rattle.std.specs.Vec.{vec_len, vec_capacity};
ghost use Rattle.cha_fact.specs.Entries.{IsOfKey};
ghost use Rattle.shard_table.specs.ShardRows.{row_key, rows_of};
ghost use Rattle.shard_table.specs.Shards.{find_row, Probes, Stores};
ghost use Rattle.shard_table.specs.Places.{IsPlaceOf};

use cha_fact::{Key, Probe, Proved, Stored};
use lru::LruCache;
use std::alloc::Global;

/// The place of the row of a key.
fn place_of(rows: &[Proved], key: &Key) -> Option<usize>
    ensures { MatchOption result (find_row key.now rows.now ≡ None) (IsPlaceOf key.now rows.now) }
{
    for (place, row) in rows.iter().enumerate() {
        if row.key() == *key {
            return Some(place);
        }
    }
    None
}

/// Puts a row in front, where there is room for one more.
fn put_first(rows: &mut Vec<Proved>, row: Proved)
    requires { vec_len rows.old < vec_capacity rows.old }
    ensures items { rows.new.items ≡ row ∷ rows.old.items }
    ensures room { vec_capacity rows.old ≤ vec_capacity rows.new }
{
    let Ok(()) = rows.insert(0, row) else {
        unreachable!()
    };
}

/// Asks for a copy of the row of a key, which then is the most recently used. Where memory for the copy is refused nothing
/// changes.
pub(crate) fn probe(alloc: Global, rows: &mut Vec<Proved>, key: &Key) -> Probe
    requires { length rows.old.items ≤ vec_capacity rows.old }
    ensures room { vec_capacity rows.old ≤ vec_capacity rows.new }
    ensures reply { Probes key.now rows.old.items result rows.new.items }
    ensures count { length rows.new.items ≡ length rows.old.items }
    ensures of_key { IsOfKey key.now result }
{
    match place_of(rows, key) {
        Some(place) => {
            let Ok(found) = rows[place].copy(alloc) else {
                return Probe::Refused;
            };
            let row = rows.remove(place);
            put_first(rows, row);
            Probe::Found(found)
        }
        None => Probe::Miss,
    }
}

/// Gives a row whose key has none to keep: where the list is full the last row goes.
fn store_new(rows: &mut Vec<Proved>, entries: u32, row: Proved) -> Stored
    requires new { find_row (row_key row) rows.old.items ≡ None }
    requires some { 0 < entries }
    requires few { length rows.old.items ≤ entries }
    requires room { entries ≤ vec_capacity rows.old }
    ensures room { vec_capacity rows.old ≤ vec_capacity rows.new }
    ensures few { length rows.new.items ≤ entries }
    ensures reply { Stores entries row rows.old.items result rows.new.items }
{
    if rows.len() < entries as usize {
        put_first(rows, row);
        return Stored::Added;
    }
    let Some(last) = rows.pop() else {
        unreachable!()
    };
    put_first(rows, row);
    Stored::Evicted(last.key())
}

/// Stores a row.
pub(crate) fn store(rows: &mut Vec<Proved>, entries: u32, row: Proved) -> Stored
    requires some { 0 < entries }
    requires few { length rows.old.items ≤ entries }
    requires room { entries ≤ vec_capacity rows.old }
    ensures room { vec_capacity rows.old ≤ vec_capacity rows.new }
    ensures few { length rows.new.items ≤ entries }
    ensures reply { Stores entries row rows.old.items result rows.new.items }
{
    let key = row.key();
    match place_of(rows, &key) {
        Some(place) => {
            let old = rows.remove(place);
            if row.rank() <= old.rank() {
                put_first(rows, old);
                return Stored::Kept;
            }
            put_first(rows, row);
            Stored::Better
        }
        None => store_new(rows, entries, row),
    }
}

/// Moves all rows of a cache into the list, which is empty.
pub(crate) fn move_rows(cache: &mut LruCache<Key, Proved>, rows: &mut Vec<Proved>)
    requires empty { rows.old.items ≡ [] }
    requires room { cache.old.cap ≤ vec_capacity rows.old }
    ensures room { vec_capacity rows.old ≤ vec_capacity rows.new }
    ensures moved { rows.new.items ≡ rows_of cache.old.entries }
    ensures none_left { cache.new.entries ≡ [] }
    ensures most { cache.new.cap ≡ cache.old.cap }
    ensures few { length rows.new.items ≤ cache.old.cap }
{
    // That there are no more rows than there may be.
    let _len = cache.len();
    while let Some((_, row)) = cache.pop_mru() {
        let Ok(()) = rows.push(row) else {
            unreachable!()
        };
    }
}
