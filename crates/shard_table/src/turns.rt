//! A probe and a store, each a turn at the shard of its key.

ghost use Rattle.std.specs.Prelude.{◌≡◌, ◌≢◌, ◌<◌, ℕ};
ghost use Rattle.cha_board.specs.Board.{Board, IsValid};
ghost use Rattle.cha_board.specs.declared.men.Color.{Color as Side};
ghost use Rattle.cha_fact.specs.Entries.{IsOfKey};
ghost use Rattle.cha_fact.specs.Keys.{key_of};
ghost use Rattle.cha_fact.specs.Truths.{Claim, rank_of};
ghost use Rattle.shard_table.specs.ShardRows.{row_key};
ghost use Rattle.shard_table.specs.Live.{IsLive, FindsAtLeast, IsTrueReply};
ghost use Rattle.shard_table.specs.Makes.{call_key};
ghost use Rattle.shard_table.specs.Tables.{shard_number, seen_at, IsOfTable, KnowsWell, TakesTurn, OthersStay, StaysFirst, FindsExactly, StoresExactly};

use crate::table::{Table, TablePass};
use cha_board::Color;
use cha_fact::{FactCall, FactReply, Key, Probe, Proved, Stored};
use std::sync::Wait;

/// The number of a key's shard, from 0 to 7: its five words modulo 1,021 are added up, with 1 more for Black, and the sum is taken
/// modulo 8.
pub fn shard_of(key: &Key) -> u8
    ensures number { result ≡ shard_number key.now }
    ensures few { result < 8 }
{
    let [a, b, c, d, e] = key.packed.words;
    let side = match key.winner {
        Color::White => 0,
        Color::Black => 1,
    };
    ((a % 1021 + b % 1021 + c % 1021 + d % 1021 + e % 1021 + side) % 8) as u8
}

// One turn at one of the shards.
fn turn_at<R: Wait>(
    rt: &R,
    table: &Table,
    pass: &mut TablePass,
    shard: usize,
    call: FactCall,
) -> FactReply
    requires shard { shard < 8 }
    requires of { IsOfTable table.now pass.old }
    ensures of { IsOfTable table.now pass.new }
    ensures turned { TakesTurn shard table.now pass.old call result pass.new }
    ensures others { OthersStay shard pass.old pass.new }
{
    table.cells[shard].turn(rt, &mut pass.passes[shard], call)
}

// One turn at the shard of a call's key.
fn turn<R: Wait>(
    rt: &R,
    table: &Table,
    pass: &mut TablePass,
    key: &Key,
    call: FactCall,
) -> FactReply
    requires of { IsOfTable table.now pass.old }
    requires key { key.now ≡ call_key call }
    ensures of { IsOfTable table.now pass.new }
    ensures turned { TakesTurn (shard_number (call_key call)) table.now pass.old call result pass.new }
    ensures others { OthersStay (shard_number (call_key call)) pass.old pass.new }
    ensures first { StaysFirst pass.old pass.new }
{
    let shard = shard_of(key);
    turn_at(rt, table, pass, shard as usize, call)
}

impl Table {
    /// Asks for the row of a key, by one turn at the key's shard. It may wait for other turns there, and takes memory for the
    /// line of a mate alone.
    ///
    /// What is found is of the asked position and side, and true. There is a miss exactly where the key has no row after all
    /// that the pass then knows to have gone before, and a refusal only where it has a mate. A row that was stored is found, or
    /// a better one, as long as the pass does not know it to be evicted and memory is not refused.
    pub fn probe<R: Wait>(&self, rt: &R, pass: &mut TablePass, key: &Key) -> Probe
        requires { IsOfTable self.now pass.old }
        ensures of { IsOfTable self.now pass.new }
        ensures turned { TakesTurn (shard_number key.now) self.now pass.old (FactCall.Probe key.now) (FactReply.Probed result) pass.new }
        ensures others { OthersStay (shard_number key.now) pass.old pass.new }
        ensures knows { KnowsWell self.now pass.new }
        ensures first { StaysFirst pass.old pass.new }
        ensures key { IsOfKey key.now result }
        ensures exactly { FindsExactly self.now pass.new key.now result }
        ensures stays { (i : ℕ) (row : Claim) → row_key row ≡ key.now → IsLive (seen_at pass.new (shard_number key.now)) i row → FindsAtLeast key.now (rank_of row.fact) result }
        ensures holds { (q : Board) (winner : Side) → IsValid q → key.now ≡ key_of q winner → IsTrueReply q winner result }
    {
        match turn(rt, self, pass, key, FactCall::Probe(*key)) {
            FactReply::Probed(Probe::Found(row)) => {
                let _fact = row.fact();
                row.known();
                Probe::Found(row)
            }
            FactReply::Probed(Probe::Miss) => Probe::Miss,
            FactReply::Probed(Probe::Refused) => Probe::Refused,
            FactReply::Stored(_) => unreachable!(),
        }
    }

    /// Gives a row to keep, by one turn at the shard of its key. It may wait for other turns there.
    ///
    /// The row is kept, or one of its key that says no less: a table has room for all its rows, and never drops one.
    pub fn store<R: Wait>(&self, rt: &R, pass: &mut TablePass, row: Proved) -> Stored
        requires { IsOfTable self.now pass.old }
        ensures of { IsOfTable self.now pass.new }
        ensures turned { TakesTurn (shard_number (row_key row)) self.now pass.old (FactCall.Store row) (FactReply.Stored result) pass.new }
        ensures others { OthersStay (shard_number (row_key row)) pass.old pass.new }
        ensures knows { KnowsWell self.now pass.new }
        ensures first { StaysFirst pass.old pass.new }
        ensures exactly { StoresExactly self.now pass.new row result }
        ensures kept { result ≢ Stored.Dropped }
    {
        let key = row.key();
        match turn(rt, self, pass, &key, FactCall::Store(row)) {
            FactReply::Stored(stored) => stored,
            FactReply::Probed(_) => unreachable!(),
        }
    }
}
