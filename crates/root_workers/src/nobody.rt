//! A crew that has nobody who searches.

ghost use Rattle.root_workers.specs.Shares.{IsRefused};

use crate::task::RoundTask;
use crate::work::Work;
use crate::workers::Crew;
use cha_fact::{Facts, Key, Probe, Proved, Stored};
use cha_moves::Move;
use std::alloc::Global;

/// A crew that has nobody who searches. Its place of facts knows and keeps nothing, and each round ends for want of memory: what is
/// decided with it is what is found without the searches of a crew.
#[derive(Drop)]
pub struct Nobody {
    work: Work,
}

impl Nobody {
    /// A crew that has nobody. It takes no memory.
    pub fn new(alloc: Global) -> Nobody {
        Nobody {
            work: refused(alloc),
        }
    }
}

/// A worker's part of a round that was refused memory before its first root move.
fn refused(alloc: Global) -> Work
    ensures { IsRefused result }
{
    let mut work = Work::new(alloc);
    work.refused = true;
    work
}

impl Facts for Nobody {
    ghost ready = { λ _. Unit {0} };

    ghost made = { λ old entries new. Unit {0} };

    ghost none_made = { λ s. tt };

    ghost both_made = { λ a b c xs ys one two. tt };

    fn probe(&mut self, _key: &Key) -> Probe {
        Probe::Miss
    }

    fn store(&mut self, _row: Proved) -> Stored {
        Stored::Dropped
    }
}

impl Crew for Nobody {
    ghost use Rattle.std.specs.Prelude.{◌≡◌, refl};
    ghost use Rattle.root_workers.specs.Making.{grow_alike, one_some};

    ghost count = { λ _. 1 };

    ghost made_by = { λ _ old entries new. Unit {0} };

    ghost leaves = { λ s _ work. work ≡ s.work };

    ghost knows = { λ _. Unit {0} };

    ghost first_made = { λ a b xs made. tt };

    ghost made_first = { λ a b xs made. tt };

    ghost none_made_by = { λ _ s. tt };

    ghost both_made_by = { λ _ a b c xs ys one two. tt };

    ghost all_grow = { λ _ a b xs made. grow_alike _ a b 1 xs (λ _. tt) };

    ghost some_workers = { λ s ready. one_some };

    ghost same_count = { λ _ a b xs made. refl };

    ghost ready_knows = { λ s ready. tt };

    fn workers(&self) -> u32 {
        1
    }

    fn work(&self, _number: u32) -> &Work {
        &self.work
    }

    fn share_out(&mut self, alloc: Global, _task: &RoundTask, _moves: &[Move]) {
        self.work = refused(alloc);
    }
}
