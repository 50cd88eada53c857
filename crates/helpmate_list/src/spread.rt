//! Who carries out the parts of a search: one thread, or several.

ghost use Rattle.std.specs.Prelude.{◌≡◌, ◌≤◌, ◌<◌, ⊤, IfOk};
ghost use Rattle.cha_moves.specs.Moves.{legal as legal_moves};
ghost use Rattle.helpmate_list.specs.Shortest.{HasNoMateBelow};
ghost use Rattle.helpmate_list.specs.Parts.{IsPart, AreParts};

use crate::parts::{MateTask, RootLines, part_of};
use cha_list::NoMemory;
use cha_moves::Move;
use std::alloc::Global;
use std::thread;
use std::thread::Threads;

/// Who does the parts of workers: one thread, one part after the other, or threads.
pub trait Spread {
    /// They may work.
    ghost ready: { Self → Type 0 };

    /// The parts of workers 0 to `count` - 1, in that order.
    fn parts(
        &self,
        alloc: Global,
        task: &MateTask,
        moves: &[Move],
        count: usize,
    ) -> Result<Vec<Result<Vec<RootLines>, NoMemory>>, NoMemory>
        requires ready { ready self.now }
        requires listed { moves.now ≡ legal_moves task.now.position }
        requires some { 1 ≤ task.now.plies }
        requires least { HasNoMateBelow task.now.position task.now.winner task.now.plies }
        ensures { IfOk result (λ parts. AreParts task.now moves.now count parts.items) };
}

/// One thread does all, one thing after the other. It makes no thread, waits for nobody and takes no lock.
#[derive(Clone, Copy, Debug, PartialEq, Eq)]
pub struct OneByOne;

impl Spread for OneByOne {
    ghost ready = { λ _. ⊤ };

    fn parts(
        &self,
        alloc: Global,
        task: &MateTask,
        moves: &[Move],
        count: usize,
    ) -> Result<Vec<Result<Vec<RootLines>, NoMemory>>, NoMemory> {
        let mut parts = Vec::new(alloc);
        for number in 0..count {
            parts.push(part_of(alloc, task, moves, number, count))?;
        }
        Ok(parts)
    }
}

/// Threads, of which at most so many work ahead on the items of an input. Each part of a search is done in one of its own.
#[derive(Clone, Copy)]
pub struct Threaded<'a, R: Threads + Sync> {
    /// What makes them.
    pub rt: &'a R,
    /// How many may work ahead at a time; where it is one, none does.
    pub most: u32,
}

impl<'a, R: Threads + Sync> Spread for Threaded<'a, R> {
    ghost use denote.Param.Send.{IsSync};

    ghost ready = { λ _. IsSync R.row };

    fn parts(
        &self,
        alloc: Global,
        task: &MateTask,
        moves: &[Move],
        count: usize,
    ) -> Result<Vec<Result<Vec<RootLines>, NoMemory>>, NoMemory> {
        let parts = thread::map_indices(
            self.rt,
            alloc,
            count,
            &|number: usize| -> Result<Vec<RootLines>, NoMemory>
                requires { (number < count) × (moves.now ≡ legal_moves task.now.position) × (1 ≤ task.now.plies) × HasNoMateBelow task.now.position task.now.winner task.now.plies }
                ensures { IfOk result (λ found. IsPart task.entry.now moves.entry.now number count found.items) }
            { part_of(alloc, task, moves, number, count) },
        )?;
        Ok(parts)
    }
}
