//! One worker without a thread.

ghost use Rattle.std.specs.Prelude.{◌≡◌};

use crate::open_moves::OpenMoves;
use crate::share::share_of;
use crate::task::RoundTask;
use crate::work::Work;
use crate::workers::Crew;
use cha_fact::{Facts, Key, Probe, Proved, Stored};
use cha_moves::Move;
use std::alloc::Global;

/// A crew of one worker, which searches all root moves one after the other with a place of facts of its own. It makes no
/// thread and waits for nobody, unless that place does.
#[derive(Drop)]
pub struct Alone<'a, F: Facts> {
    place: &'a mut F,
    work: Work,
}

impl<'a, F: Facts> Alone<'a, F> {
    /// The worker with this place. It takes no memory.
    pub fn new(alloc: Global, place: &'a mut F) -> Alone<'a, F>
        ensures same_place { result.place.ghost_name ≡ place.entry.ghost_name }
        ensures state { result.place.now ≡ place.old }
    {
        Alone {
            place,
            work: Work::new(alloc),
        }
    }
}

impl<'a, F: Facts> Facts for Alone<'a, F> {
    ghost use Rattle.std.specs.Prelude.{refl};
    ghost use Rattle.std.proofs.Common.{◌∙◌};

    ghost ready = { λ s. F.ready s.place.now };

    ghost made = { λ old entries new. (new.place.ghost_name ≡ old.place.ghost_name) × F.made old.place.now entries new.place.now };

    ghost none_made = { λ s. (refl, F.none_made s.place.now) };

    ghost both_made = { λ a b c xs ys one two. (two.0 ∙ one.0, F.both_made a.place.now b.place.now c.place.now xs ys one.1 two.1) };

    fn probe(&mut self, key: &Key) -> Probe {
        self.place.probe(key)
    }

    fn store(&mut self, row: Proved) -> Stored {
        self.place.store(row)
    }
}

impl<'a, F: Facts> Crew for Alone<'a, F> {
    ghost use Rattle.std.specs.Prelude.{refl};
    ghost use Rattle.std.proofs.Common.{◌∙◌};
    ghost use Rattle.root_workers.specs.Making.{grow_alike, one_some};

    ghost count = { λ _. 1 };

    ghost made_by = { λ _ old entries new. (new.place.ghost_name ≡ old.place.ghost_name) × F.made old.place.now entries new.place.now };

    ghost leaves = { λ s _ work. work ≡ s.work };

    ghost knows = { λ s. F.ready s.place.now };

    ghost first_made = { λ a b xs made. made };

    ghost made_first = { λ a b xs made. made };

    ghost none_made_by = { λ _ s. (refl, F.none_made s.place.now) };

    ghost both_made_by = { λ _ a b c xs ys one two. (two.0 ∙ one.0, F.both_made a.place.now b.place.now c.place.now xs ys one.1 two.1) };

    ghost all_grow = { λ _ a b xs made. grow_alike _ a b 1 xs (λ _. made) };

    ghost some_workers = { λ s ready. one_some };

    ghost same_count = { λ _ a b xs made. refl };

    ghost ready_knows = { λ s ready. ready };

    fn workers(&self) -> u32 {
        1
    }

    fn work(&self, _number: u32) -> &Work {
        &self.work
    }

    fn share_out(&mut self, alloc: Global, task: &RoundTask, moves: &[Move]) {
        // Nobody is there to be helped.
        let open = OpenMoves::none(alloc);
        self.work = share_of(alloc, task, moves, 0, 1, &open, self.place);
    }
}
