//! Workers that are threads and are hired when a position first reaches the rounds.

ghost use Rattle.std.specs.Prelude.{◌≤◌};
ghost use Rattle.root_workers.specs.Hiring.{IsStaff, IsUnhired, StaffEnds};

use crate::staff::Staff;
use crate::task::RoundTask;
use crate::work::Work;
use crate::workers::Crew;
use cha_fact::{Facts, Key, Probe, Proved, Stored};
use cha_moves::Move;
use shard_table::Shard;
use std::alloc::Global;
use std::sync::Wait;
use std::thread::Threads;

/// A crew of threads at one table. Table and crew are made when they are first called on, and where memory for them is refused
/// each round ends for want of memory.
#[derive(Drop)]
pub struct OnDemand<'a, R: Threads + Wait + Sync> {
    rt: &'a R,
    alloc: Global,
    staff: Staff,
}

impl<'a, R: Threads + Wait + Sync> OnDemand<'a, R> {
    /// A crew of `count` workers, 1 to 16, to be hired at a table of `entries` rows for each shard, 1 to 65,536. It takes no memory.
    pub fn new(rt: &'a R, alloc: Global, count: u32, entries: u32) -> OnDemand<'a, R>
        requires some { 1 ≤ count }
        requires few { count ≤ 16 }
        requires rows { (1 ≤ entries) × (entries ≤ 65536) }
        ensures staff { IsStaff result.staff }
        ensures none { IsUnhired count entries result.staff }
    {
        OnDemand {
            rt,
            alloc,
            staff: Staff::new(alloc, count, entries),
        }
    }

    /// Dismisses the workers, closes the table and gives its shards; None where nobody was hired.
    pub fn close(self) -> Option<[Shard; 8]>
        requires { IsStaff self.staff }
        ensures { StaffEnds self.entry.staff.hired result }
    {
        self.staff.close()
    }
}

impl<'a, R: Threads + Wait + Sync> Facts for OnDemand<'a, R> {
    ghost use denote.Param.Send.{IsSync};
    ghost use Rattle.root_workers.specs.Hiring.{IsStaff, StaffMakes};
    ghost use Rattle.root_workers.specs.Hirings.{staff_none, staff_both};

    ghost ready = { λ s. IsSync R.row × IsStaff s.staff };

    ghost made = { λ old entries new. StaffMakes 0 old.staff entries new.staff };

    ghost none_made = { λ s. staff_none 0 s.staff };

    ghost both_made = { λ a b c xs ys one two. staff_both 0 a.staff b.staff c.staff xs ys one two };

    fn probe(&mut self, key: &Key) -> Probe {
        self.staff.probe(self.rt, self.alloc, key)
    }

    fn store(&mut self, row: Proved) -> Stored {
        self.staff.store(self.rt, self.alloc, row)
    }
}

impl<'a, R: Threads + Wait + Sync> Crew for OnDemand<'a, R> {
    ghost use Rattle.root_workers.specs.Hiring.{StaffMakes, StaffLeaves, StaffKnows, staff_count};
    ghost use Rattle.root_workers.specs.Hirings.{staff_none, staff_both, staff_grows, staff_some};
    ghost use Rattle.root_workers.specs.Knowing.{staff_knows};

    ghost count = { λ s. staff_count s.staff };

    ghost made_by = { λ i old entries new. StaffMakes i old.staff entries new.staff };

    ghost leaves = { λ s i work. StaffLeaves s.staff i work };

    ghost knows = { λ s. StaffKnows s.staff.hired };

    ghost first_made = { λ a b xs made. made };

    ghost made_first = { λ a b xs made. made };

    ghost none_made_by = { λ i s. staff_none i s.staff };

    ghost both_made_by = { λ i a b c xs ys one two. staff_both i a.staff b.staff c.staff xs ys one two };

    ghost all_grow = { λ i a b xs made. staff_grows _ a b a.staff b.staff i xs made (λ j ys more. more) };

    ghost some_workers = { λ s ready. staff_some s.staff ready.1 };

    ghost same_count = { λ i a b xs made. made.count };

    ghost ready_knows = { λ s ready. staff_knows s.staff ready.1 };

    fn workers(&self) -> u32 {
        self.staff.workers()
    }

    fn work(&self, number: u32) -> &Work {
        self.staff.work(number)
    }

    fn share_out(&mut self, alloc: Global, task: &RoundTask, moves: &[Move]) {
        self.staff.share_out(self.rt, alloc, task, moves);
    }
}
