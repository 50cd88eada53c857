//! Workers that are threads at one table.

ghost use Rattle.std.specs.Prelude.{◌≡◌, ℕ, ◌+◌, ◌<◌, ◌≤◌, [], ◌∷◌, length, slice_index_or, IsNone, IfOk, OnErr};
ghost use Rattle.cha_moves.specs.Moves.{legal as legal_moves};
ghost use Rattle.cha_fact.specs.Entries.{probe_entry, store_entry, IsOfKey};
ghost use Rattle.shard_table.specs.Tables.{IsOfTable, IsFirstPass, splits_of};
ghost use Rattle.root_workers.specs.Crews.{IsCrew, CrewMakes, WorkerDone};
ghost use Rattle.root_workers.specs.Splits.{OnlySplits, AreFresh};

use crate::each::each_mut;
use crate::open_moves::OpenMoves;
use crate::share::share_of;
use crate::task::RoundTask;
use crate::work::{Work, Worker};
use crate::workers::Crew;
use cha_fact::{Facts, Key, Probe, Proved, Stored};
use cha_list::NoMemory;
use cha_moves::Move;
use shard_table::{Table, TableFacts, TablePass};
use std::alloc::Global;
use std::sync::Wait;
use std::thread::Threads;

/// The workers of a crew with the table at which they take their turns. Each searches its root moves in a thread of its own.
#[derive(Drop)]
pub struct Many<'a, R: Threads + Wait + Sync> {
    rt: &'a R,
    table: &'a Table,
    crew: &'a mut Vec<Worker>,
}

impl<'a, R: Threads + Wait + Sync> Many<'a, R> {
    /// These workers at this table.
    pub fn new(rt: &'a R, table: &'a Table, crew: &'a mut Vec<Worker>) -> Many<'a, R>
        ensures same_crew { result.crew.ghost_name ≡ crew.entry.ghost_name }
        ensures state { result.crew.now ≡ crew.old }
        ensures table { result.table.now ≡ table.now }
    {
        Many { rt, table, crew }
    }
}

/// A crew of 1 to 16 workers, whose passes are split off the table's first pass: they know what it knows, and have made no
/// call. It is made once in a run. Where memory is refused no pass was split off.
pub fn crew(
    alloc: Global,
    table: &Table,
    pass: &mut TablePass,
    count: u32,
) -> Result<Vec<Worker>, NoMemory>
    requires of { IsOfTable table.now pass.old }
    requires first { IsFirstPass pass.old }
    requires some { 1 ≤ count }
    requires many { count ≤ 16 }
    requires few { splits_of pass.old ≤ 984 }
    ensures of { IsOfTable table.now pass.new }
    ensures first { IsFirstPass pass.new }
    ensures splits { IfOk result (λ crew. splits_of pass.new ≡ splits_of pass.old + count) }
    ensures only { OnlySplits pass.old pass.new }
    ensures crew { IfOk result (λ crew. IsCrew table.now crew.items) }
    ensures count { IfOk result (λ crew. length crew.items ≡ count) }
    ensures fresh { IfOk result (λ crew. AreFresh pass.old crew.items) }
    ensures unchanged { OnErr result (pass.new ≡ pass.old) }
{
    let mut crew = Vec::with_capacity(alloc, count as usize)?;
    for number in 0..count {
        let own = table.split(pass);
        let worker = Worker {
            number,
            pass: own,
            work: Work::new(alloc),
        };
        let Ok(()) = crew.push(worker) else {
            unreachable!()
        };
    }
    Ok(crew)
}

/// One worker's part of a round.
fn work_on<R: Wait>(
    rt: &R,
    alloc: Global,
    table: &Table,
    task: &RoundTask,
    moves: &[Move],
    count: u32,
    open: &OpenMoves,
    worker: &mut Worker,
)
    requires of { IsOfTable table.now worker.old.pass }
    requires listed { moves.now ≡ legal_moves task.now.position }
    requires some { 1 ≤ task.now.depth }
    requires few { task.now.depth ≤ 8 }
    requires bounded { IsNone task.now.allowance → task.now.depth ≤ 3 }
    requires number { worker.old.number < count }
    requires count { count ≤ 16 }
    ensures done { WorkerDone table.now task.now moves.now count worker.old worker.new }
{
    let mut facts = TableFacts::new(rt, table, &mut worker.pass);
    worker.work = share_of(alloc, task, moves, worker.number, count, open, &mut facts);
}

/// Each worker's part of a round, in a thread of its own.
pub(crate) fn hand_out<R: Threads + Wait + Sync>(
    rt: &R,
    alloc: Global,
    table: &Table,
    task: &RoundTask,
    moves: &[Move],
    crew: &mut [Worker],
)
    requires crew { IsCrew table.now crew.old }
    requires listed { moves.now ≡ legal_moves task.now.position }
    requires some { 1 ≤ task.now.depth }
    requires few { task.now.depth ≤ 8 }
    requires bounded { IsNone task.now.allowance → task.now.depth ≤ 3 }
    ensures count { length crew.new ≡ length crew.old }
    ensures done { (i : ℕ) (d : Worker) → i < length crew.old → WorkerDone table.now task.now moves.now (length crew.old) (slice_index_or crew.old i d) (slice_index_or crew.new i d) }
{
    let count = crew.len() as u32;
    let open = OpenMoves::all(alloc, moves.len());
    each_mut(
        rt,
        crew,
        &|_, worker: &mut Worker|
            requires { IsOfTable table.now worker.now.pass × (worker.now.number < count) × (count ≤ 16) × (moves.now ≡ legal_moves task.now.position) × (1 ≤ task.now.depth) × (task.now.depth ≤ 8) × (IsNone task.now.allowance → task.now.depth ≤ 3) }
            ensures { WorkerDone table.entry.now task.entry.now moves.entry.now count worker.entry.now worker.exit.now }
        { work_on(rt, alloc, table, task, moves, count, &open, worker) },
    );
}

/// The pass of the first worker asks.
pub(crate) fn first_probe<R: Wait>(rt: &R, table: &Table, crew: &mut [Worker], key: &Key) -> Probe
    requires crew { IsCrew table.now crew.old }
    ensures crew { IsCrew table.now crew.new }
    ensures made { CrewMakes 0 crew.old (probe_entry key.now result ∷ []) crew.new }
    ensures of_key { IsOfKey key.now result }
{
    table.probe(rt, &mut crew[0].pass, key)
}

/// The pass of the first worker gives something to keep.
pub(crate) fn first_store<R: Wait>(
    rt: &R,
    table: &Table,
    crew: &mut [Worker],
    row: Proved,
) -> Stored
    requires crew { IsCrew table.now crew.old }
    ensures crew { IsCrew table.now crew.new }
    ensures made { CrewMakes 0 crew.old (store_entry row result ∷ []) crew.new }
{
    table.store(rt, &mut crew[0].pass, row)
}

impl<'a, R: Threads + Wait + Sync> Facts for Many<'a, R> {
    ghost use Rattle.std.specs.Prelude.{refl};
    ghost use Rattle.std.proofs.Common.{◌∙◌};
    ghost use denote.Param.Send.{IsSync};
    ghost use Rattle.root_workers.specs.Crews.{IsCrew, CrewMakes};
    ghost use Rattle.root_workers.specs.Making.{crew_makes_none, crew_makes_both};

    ghost ready = { λ s. IsSync R.row × IsCrew s.table.now s.crew.now.items };

    ghost made = { λ old entries new. (new.table.now ≡ old.table.now) × (new.crew.ghost_name ≡ old.crew.ghost_name) × CrewMakes 0 old.crew.now.items entries new.crew.now.items };

    ghost none_made = { λ s. (refl, refl, crew_makes_none 0 s.crew.now.items) };

    ghost both_made = { λ a b c xs ys one two. (two.0 ∙ one.0, two.1 ∙ one.1, crew_makes_both 0 a.crew.now.items b.crew.now.items c.crew.now.items xs ys one.2 two.2) };

    fn probe(&mut self, key: &Key) -> Probe {
        first_probe(self.rt, self.table, self.crew.as_mut_slice(), key)
    }

    fn store(&mut self, row: Proved) -> Stored {
        first_store(self.rt, self.table, self.crew.as_mut_slice(), row)
    }
}

impl<'a, R: Threads + Wait + Sync> Crew for Many<'a, R> {
    ghost use Rattle.std.specs.Prelude.{refl, length, ◌<◌, slice_index_or};
    ghost use Rattle.std.proofs.Common.{◌∙◌};
    ghost use Rattle.root_workers.specs.Crews.{CrewMakes, LeavesWork, AllKnowWell};
    ghost use Rattle.root_workers.specs.Making.{crew_makes_none, crew_makes_both, crew_grows};
    ghost use Rattle.root_workers.specs.Knowing.{all_know_well};

    ghost count = { λ s. length s.crew.now.items };

    ghost made_by = { λ i old entries new. (new.table.now ≡ old.table.now) × (new.crew.ghost_name ≡ old.crew.ghost_name) × CrewMakes i old.crew.now.items entries new.crew.now.items };

    ghost leaves = { λ s i work. LeavesWork s.crew.now.items i work };

    ghost knows = { λ s. AllKnowWell s.table.now s.crew.now.items };

    ghost first_made = { λ a b xs made. made };

    ghost made_first = { λ a b xs made. made };

    ghost none_made_by = { λ i s. (refl, refl, crew_makes_none i s.crew.now.items) };

    ghost both_made_by = { λ i a b c xs ys one two. (two.0 ∙ one.0, two.1 ∙ one.1, crew_makes_both i a.crew.now.items b.crew.now.items c.crew.now.items xs ys one.2 two.2) };

    ghost all_grow = { λ i a b xs made. crew_grows _ a b a.crew.now.items b.crew.now.items i xs made.2 (λ j ys more. (made.0, made.1, more)) };

    ghost some_workers = { λ s ready. ready.1.some };

    ghost same_count = { λ i a b xs made. made.2.same };

    ghost ready_knows = { λ s ready. all_know_well s.table.now s.crew.now.items ready.1 };

    fn workers(&self) -> u32 {
        self.crew.len() as u32
    }

    fn work(&self, number: u32) -> &Work {
        &self.crew[number as usize].work
    }

    fn share_out(&mut self, alloc: Global, task: &RoundTask, moves: &[Move]) {
        hand_out(self.rt, alloc, self.table, task, moves, self.crew);
    }
}
