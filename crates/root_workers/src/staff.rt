//! Workers that are hired when they are first called on.

ghost use Rattle.std.specs.Prelude.{◌≡◌, ◌≤◌, ◌<◌, ℕ, [], ◌∷◌, None, true, IsNone};
ghost use Rattle.cha_moves.specs.Moves.{legal as legal_moves};
ghost use Rattle.cha_fact.specs.Entries.{probe_entry, store_entry, IsOfKey};
ghost use Rattle.root_workers.specs.declared.work.Work.{Work as WorkLeft};
ghost use Rattle.root_workers.specs.Shares.{IsShare, ShareCalls, AllGrowTo};
ghost use Rattle.root_workers.specs.Hiring.{IsStaff, IsUnhired, StaffMakes, StaffLeaves, StaffEnds, staff_count, is_refused};

use crate::hired::Hired;
use crate::task::RoundTask;
use crate::work::Work;
use cha_fact::{Key, Probe, Proved, Stored};
use cha_moves::Move;
use shard_table::Shard;
use std::alloc::Global;
use std::sync::Wait;
use std::thread::Threads;

/// How many workers there are to be and how many rows each shard of their table has, and the workers once they are hired.
#[derive(Drop)]
pub struct Staff {
    pub(crate) count: u32,
    pub(crate) entries: u32,
    pub(crate) hired: Option<Hired>,
    /// What each worker leaves of a round where memory for a table and a crew was refused.
    pub(crate) idle: Work,
}

impl Staff {
    /// Nobody is hired yet. It takes no memory.
    pub(crate) fn new(alloc: Global, count: u32, entries: u32) -> Staff
        requires some { 1 ≤ count }
        requires few { count ≤ 16 }
        requires rows { (1 ≤ entries) × (entries ≤ 65536) }
        ensures staff { IsStaff result }
        ensures none { IsUnhired count entries result }
    {
        Staff {
            count,
            entries,
            hired: None,
            idle: Work::new(alloc),
        }
    }

    /// Makes the table and the crew where that was not tried yet.
    fn hire(&mut self, alloc: Global)
        requires { IsStaff self.old }
        ensures staff { IsStaff self.new }
        ensures nothing { (i : ℕ) → StaffMakes i self.old [] self.new }
        ensures hired { self.new.hired ≡ None → is_refused self.new ≡ true }
    {
        if self.hired.is_none() && !self.idle.refused {
            match Hired::new(alloc, self.count, self.entries) {
                Ok(hired) => self.hired = Some(hired),
                Err(_) => self.idle.refused = true,
            }
        }
    }

    /// How many workers there are, hired or not.
    pub(crate) fn workers(&self) -> u32
        requires { IsStaff self.now }
        ensures value { result ≡ staff_count self.now }
        ensures some { 0 < result }
        ensures few { result ≤ 16 }
    {
        match &self.hired {
            Some(hired) => hired.crew.len() as u32,
            None => self.count,
        }
    }

    /// What a worker left of the last round.
    pub(crate) fn work(&self, number: u32) -> &Work
        requires staff { IsStaff self.now }
        requires number { number < staff_count self.now }
        ensures left { StaffLeaves self.now number result.now }
        ensures only { (work : WorkLeft) → StaffLeaves self.now number work → work ≡ result.now }
    {
        match &self.hired {
            Some(hired) => &hired.crew[number as usize].work,
            None => &self.idle,
        }
    }

    /// The first worker asks at the table. Nothing is found where memory was refused.
    pub(crate) fn probe<R: Wait>(&mut self, rt: &R, alloc: Global, key: &Key) -> Probe
        requires { IsStaff self.old }
        ensures staff { IsStaff self.new }
        ensures made { StaffMakes 0 self.old (probe_entry key.now result ∷ []) self.new }
        ensures of_key { IsOfKey key.now result }
    {
        self.hire(alloc);
        match &mut self.hired {
            Some(hired) => hired.probe(rt, key),
            None => Probe::Miss,
        }
    }

    /// The first worker gives something to keep. Nothing is kept where memory was refused.
    pub(crate) fn store<R: Wait>(&mut self, rt: &R, alloc: Global, row: Proved) -> Stored
        requires { IsStaff self.old }
        ensures staff { IsStaff self.new }
        ensures made { StaffMakes 0 self.old (store_entry row result ∷ []) self.new }
    {
        self.hire(alloc);
        match &mut self.hired {
            Some(hired) => hired.store(rt, row),
            None => Stored::Dropped,
        }
    }

    /// Each worker's part of a round, which is refused where memory for the crew was.
    pub(crate) fn share_out<R: Threads + Wait + Sync>(
        &mut self,
        rt: &R,
        alloc: Global,
        task: &RoundTask,
        moves: &[Move],
    )
        requires staff { IsStaff self.old }
        requires listed { moves.now ≡ legal_moves task.now.position }
        requires some { 1 ≤ task.now.depth }
        requires few { task.now.depth ≤ 8 }
        requires bounded { IsNone task.now.allowance → task.now.depth ≤ 3 }
        ensures staff { IsStaff self.new }
        ensures count { staff_count self.new ≡ staff_count self.old }
        ensures shares { (i : ℕ) (work : WorkLeft) → i < staff_count self.old → StaffLeaves self.new i work → IsShare task.now moves.now i (staff_count self.old) work }
        ensures calls { (i : ℕ) (work : WorkLeft) → i < staff_count self.old → StaffLeaves self.new i work → ShareCalls (StaffMakes i) self.old self.new task.now moves.now i (staff_count self.old) work }
        ensures grow { AllGrowTo task.now.depth StaffMakes self.old self.new (staff_count self.old) }
    {
        self.hire(alloc);
        match &mut self.hired {
            Some(hired) => hired.share_out(rt, alloc, task, moves),
            None => {}
        }
    }

    /// Dismisses who is hired, and closes the table. Its shards are left.
    pub(crate) fn close(self) -> Option<[Shard; 8]>
        requires { IsStaff self }
        ensures { StaffEnds self.hired result }
    {
        let Staff {
            count: _,
            entries: _,
            hired,
            idle: _,
        } = self;
        match hired {
            Some(hired) => Some(hired.close()),
            None => None,
        }
    }
}
