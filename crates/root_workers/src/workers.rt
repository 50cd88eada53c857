//! Workers as a whole.

ghost use Rattle.std.specs.Prelude.{ℕ, ◌≡◌, ◌+◌, ◌<◌, ◌≤◌, List, [], ◌++◌, IsNone};
ghost use Rattle.cha_moves.specs.Moves.{legal as legal_moves};
ghost use Rattle.cha_fact.specs.Entries.{Entry};
ghost use Rattle.root_workers.specs.Shares.{IsShare, ShareCalls, AllGrow, AllGrowTo};

use crate::task::RoundTask;
use crate::work::Work;
use cha_fact::Facts;
use cha_moves::Move;
use std::alloc::Global;

/// Workers that share out the root moves of a round, each with a place of its own that keeps facts. As a place of facts a crew
/// is that of its first worker.
///
/// Contracts see how many workers there are, which entries each of them made from one state of the crew to a later one, what
/// each left of the last round, and what they know.
pub trait Crew: Facts {
    ghost use Rattle.root_workers.specs.declared.work.Work.{Work};

    /// How many workers there are.
    ghost count: { Self → ℕ };

    /// From one state to a later one just these entries were made by the worker with this number, in this order.
    ghost made_by: { ℕ → Self → List Entry → Self → Type 0 };

    /// The worker with this number left this work.
    ghost leaves: { Self → ℕ → Work → Type 0 };

    /// What the workers know of the calls of all. Of a crew at a table: what each worker has seen at each shard is one legal
    /// history, in which the entries under the number of its pass are those that it made.
    ghost knows: { Self → Type 0 };

    /// How many workers there are, from 1 to 16.
    fn workers(&self) -> u32
        requires { Self.ready self.now }
        ensures value { result ≡ count self.now }
        ensures some { 0 < result }
        ensures few { result ≤ 16 };

    /// What a worker left of the last round.
    fn work(&self, number: u32) -> &Work
        requires ready { Self.ready self.now }
        requires number { number < count self.now }
        ensures left { leaves self.now number result.now }
        ensures only { (work : Work) → leaves self.now number work → work ≡ result.now };

    /// Has each worker search its root moves: those whose number is the worker's own, modulo the count of workers. In a round of at
    /// most four plies no worker makes a call.
    fn share_out(&mut self, alloc: Global, task: &RoundTask, moves: &[Move])
        requires ready { Self.ready self.old }
        requires listed { moves.now ≡ legal_moves task.now.position }
        requires some { 1 ≤ task.now.depth }
        requires few { task.now.depth ≤ 8 }
        requires bounded { IsNone task.now.allowance → task.now.depth ≤ 3 }
        ensures stays_ready { Self.ready self.new }
        ensures count { count self.new ≡ count self.old }
        ensures shares { (i : ℕ) (work : Work) → i < count self.old → leaves self.new i work → IsShare task.now moves.now i (count self.old) work }
        ensures calls { (i : ℕ) (work : Work) → i < count self.old → leaves self.new i work → ShareCalls (made_by i) self.old self.new task.now moves.now i (count self.old) work }
        ensures grow { AllGrowTo task.now.depth made_by self.old self.new (count self.old) };

    /// As a place of facts it is that of its first worker.
    ghost first_made: { (a b : Self) (xs : List Entry) → Self.made a xs b → made_by 0 a xs b };

    /// What the first worker made was made by the crew as a place of facts.
    ghost made_first: { (a b : Self) (xs : List Entry) → made_by 0 a xs b → Self.made a xs b };

    /// Where nothing is done, no entry is made.
    ghost none_made_by: { (i : ℕ) (s : Self) → made_by i s [] s };

    /// The entries of two times, one after the other, are the entries of both.
    ghost both_made_by: { (i : ℕ) (a b c : Self) (xs ys : List Entry) → made_by i a xs b → made_by i b ys c → made_by i a (xs ++ ys) c };

    /// Whenever one worker made entries, each made some.
    ghost all_grow: { (i : ℕ) (a b : Self) (xs : List Entry) → made_by i a xs b → AllGrow made_by a b (count a) };

    /// There is a worker.
    ghost some_workers: { (s : Self) → Self.ready s → 0 < count s };

    /// The workers stay as many.
    ghost same_count: { (i : ℕ) (a b : Self) (xs : List Entry) → made_by i a xs b → count b ≡ count a };

    /// The workers know it at any time, after a call that was refused memory too.
    ghost ready_knows: { (s : Self) → Self.ready s → knows s };
}
