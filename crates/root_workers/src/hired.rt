//! Workers that are threads, with the table that was made for them.

ghost use Rattle.std.specs.Prelude.{◌≡◌, ◌≤◌, ◌<◌, ℕ, [], ◌∷◌, length, slice_index_or, IsNone, IfOk};
ghost use Rattle.cha_moves.specs.Moves.{legal as legal_moves};
ghost use Rattle.cha_fact.specs.Entries.{probe_entry, store_entry, IsOfKey};
ghost use Rattle.root_workers.specs.Crews.{IsCrew, WorkerDone};
ghost use Rattle.root_workers.specs.Histories.{EndsAsOne};
ghost use Rattle.root_workers.specs.Hiring.{IsHired, IsFreshlyHired, HiredMakes};

use crate::dismissing::close;
use crate::many::{crew, first_probe, first_store, hand_out};
use crate::task::RoundTask;
use crate::work::Worker;
use cha_fact::{Key, Probe, Proved, Stored};
use cha_list::NoMemory;
use cha_moves::Move;
use shard_table::{Shard, Table, TablePass};
use std::alloc::Global;
use std::sync::Wait;
use std::thread::Threads;

/// A table with its first pass, and the workers whose passes were split off it.
#[derive(Drop)]
pub struct Hired {
    pub(crate) table: Table,
    pub(crate) pass: TablePass,
    pub(crate) crew: Vec<Worker>,
}

impl Hired {
    /// So many workers at a new table with so many rows for each shard. Nobody has made a call.
    pub(crate) fn new(alloc: Global, count: u32, entries: u32) -> Result<Hired, NoMemory>
        requires some { 1 ≤ count }
        requires few { count ≤ 16 }
        requires rows { (1 ≤ entries) × (entries ≤ 65536) }
        ensures hired { IfOk result (λ hired. IsHired count entries hired) }
        ensures fresh { IfOk result IsFreshlyHired }
    {
        let (table, first) = Table::new(alloc, entries)?;
        let mut pass = first;
        let crew = crew(alloc, &table, &mut pass, count)?;
        Ok(Hired { table, pass, crew })
    }

    /// The first worker asks at the table.
    pub(crate) fn probe<R: Wait>(&mut self, rt: &R, key: &Key) -> Probe
        requires crew { IsCrew self.old.table self.old.crew.items }
        ensures crew { IsCrew self.new.table self.new.crew.items }
        ensures made { HiredMakes 0 self.old (probe_entry key.now result ∷ []) self.new }
        ensures of_key { IsOfKey key.now result }
    {
        first_probe(rt, &self.table, self.crew.as_mut_slice(), key)
    }

    /// The first worker gives something to keep.
    pub(crate) fn store<R: Wait>(&mut self, rt: &R, row: Proved) -> Stored
        requires crew { IsCrew self.old.table self.old.crew.items }
        ensures crew { IsCrew self.new.table self.new.crew.items }
        ensures made { HiredMakes 0 self.old (store_entry row result ∷ []) self.new }
    {
        first_store(rt, &self.table, self.crew.as_mut_slice(), row)
    }

    /// Each worker's part of a round.
    pub(crate) fn share_out<R: Threads + Wait + Sync>(
        &mut self,
        rt: &R,
        alloc: Global,
        task: &RoundTask,
        moves: &[Move],
    )
        requires crew { IsCrew self.old.table self.old.crew.items }
        requires listed { moves.now ≡ legal_moves task.now.position }
        requires some { 1 ≤ task.now.depth }
        requires few { task.now.depth ≤ 8 }
        requires bounded { IsNone task.now.allowance → task.now.depth ≤ 3 }
        ensures crew { IsCrew self.new.table self.new.crew.items }
        ensures table { self.new.table ≡ self.old.table }
        ensures pass { self.new.pass ≡ self.old.pass }
        ensures count { length self.new.crew.items ≡ length self.old.crew.items }
        ensures done { (i : ℕ) (d : Worker) → i < length self.old.crew.items → WorkerDone self.old.table task.now moves.now (length self.old.crew.items) (slice_index_or self.old.crew.items i d) (slice_index_or self.new.crew.items i d) }
    {
        hand_out(rt, alloc, &self.table, task, moves, &mut self.crew);
    }

    /// Dismisses all workers and closes the table. Its shards are left.
    pub(crate) fn close(self) -> [Shard; 8]
        requires { (count entries : ℕ) × IsHired count entries self }
        ensures { EndsAsOne self.table self.pass self.crew.items result }
    {
        let Hired { table, pass, crew } = self;
        close(table, pass, crew)
    }
}
