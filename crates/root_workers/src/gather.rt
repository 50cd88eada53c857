//! What the works of a round come to.

ghost use Rattle.std.specs.Prelude.{◌≡◌, ℕ, ◌<◌, ◌≤◌, ◌⊎◌, ◌∷◌, ◌↔◌, true, false, length, slice_get, Some, None, Ok, IsTrue, IfOk, OnErr};
ghost use Rattle.cha_board.specs.Men.{other_color};
ghost use Rattle.cha_moves.specs.Moves.{legal as legal_moves};
ghost use Rattle.cha_moves.specs.Ends.{IsMated, IsMatingLine};
ghost use Rattle.helpmate.specs.Rounds.{IsAnswer};
ghost use Rattle.root_workers.specs.Shares.{IsWhole, IsRootMate, IsSpent};
ghost use Rattle.root_workers.specs.Gathers.{IsNoHigher, IsRootMateOr, AreShares, AreWhole};

use crate::task::RoundTask;
use crate::work::{RootMate, Work};
use crate::workers::Crew;
use cha_fact::Line;
use cha_list::NoMemory;
use cha_moves::Move;
use helpmate::RoundAnswer;

/// Whether a worker cleared each of its root moves.
fn is_whole(work: &Work) -> bool
    ensures { IsTrue result ↔ IsWhole work.now }
{
    if work.spent || work.refused {
        return false;
    }
    match &work.mate {
        Some(_) => false,
        None => true,
    }
}

/// Whether all workers cleared their root moves.
fn are_whole<C: Crew>(crew: &C) -> bool
    requires { C.ready crew.now }
    ensures whole { result ≡ true → AreWhole (C.leaves crew.now) (C.count crew.now) }
    ensures open { result ≡ false → (i : ℕ) × (work : Work) × (i < C.count crew.now) × C.leaves crew.now i work × (IsWhole work → ⊥) }
    ensures some { 0 < C.count crew.now }
{
    for number in 0..crew.workers() {
        if !is_whole(crew.work(number)) {
            return false;
        }
    }
    true
}

/// Whether some worker spent its allowance.
fn is_spent<C: Crew>(crew: &C) -> bool
    requires { C.ready crew.now }
    ensures spent { result ≡ true → (i : ℕ) × (work : Work) × (i < C.count crew.now) × C.leaves crew.now i work × (work.spent ≡ true) }
    ensures left { result ≡ false → (i : ℕ) (work : Work) → i < C.count crew.now → C.leaves crew.now i work → work.spent ≡ false }
{
    for number in 0..crew.workers() {
        if crew.work(number).spent {
            return true;
        }
    }
    false
}

/// Of two mates the one with the lower root move.
fn lower(best: Option<RootMate>, mate: &Option<RootMate>) -> Option<RootMate>
    ensures value { (result ≡ best) ⊎ (result ≡ mate.now) }
    ensures no_higher { IsNoHigher result best × IsNoHigher result mate.now }
{
    let Some(other) = mate else {
        return best;
    };
    match best {
        Some(first) => {
            if first.root_move <= other.root_move {
                return Some(first);
            }
            Some(other.copy())
        }
        None => Some(other.copy()),
    }
}

/// Of the mates that workers met the one with the lowest root move.
fn lowest_mate<C: Crew>(task: &RoundTask, moves: &[Move], crew: &C) -> Option<RootMate>
    requires ready { C.ready crew.now }
    requires shares { AreShares (C.leaves crew.now) task.now moves.now (C.count crew.now) }
    ensures holds { IsRootMateOr task.now moves.now result }
    ensures lowest { (i : ℕ) (work : Work) → i < C.count crew.now → C.leaves crew.now i work → IsNoHigher result work.mate }
{
    let mut best = None;
    for number in 0..crew.workers() {
        best = lower(best, &crew.work(number).mate);
    }
    best
}

/// A mate of the root: the root move, and the mate of the position after it.
fn led(task: &RoundTask, moves: &[Move], mate: &RootMate) -> Line
    requires { IsRootMate task.now moves.now mate.now }
    ensures mates { IsMatingLine task.now.position task.now.winner result }
    ensures short { length result ≤ 40 }
    ensures begins { (m : Move) → slice_get moves.now mate.now.root_move ≡ Some m → result ≡ m ∷ mate.now.line }
{
    match mate.line.led_by(moves[mate.root_move as usize]) {
        Some(line) => line,
        None => unreachable!(),
    }
}

/// What a round comes to. There is no mate only where the root moves that workers cleared are all root moves, each once. It takes
/// no memory itself: `NoMemory` is the answer only where a worker was refused memory.
pub fn gathered<C: Crew>(
    task: &RoundTask,
    moves: &[Move],
    crew: &C,
) -> Result<RoundAnswer, NoMemory>
    requires ready { C.ready crew.now }
    requires listed { moves.now ≡ legal_moves task.now.position }
    requires some { 1 ≤ task.now.depth }
    requires running { IsMated task.now.position (other_color task.now.winner) → ⊥ }
    requires shares { AreShares (C.leaves crew.now) task.now moves.now (C.count crew.now) }
    ensures holds { IfOk result (IsAnswer task.now.position task.now.winner task.now.depth 40) }
    ensures spent { result ≡ Ok RoundAnswer.Spent → IsSpent task.now }
    ensures whole { result ≡ Ok RoundAnswer.NoneWithin → AreWhole (C.leaves crew.now) (C.count crew.now) }
    ensures lowest { (line : Line) → result ≡ Ok (RoundAnswer.Mate line) → (best : RootMate) × (m : Move) × (slice_get moves.now best.root_move ≡ Some m) × (line ≡ m ∷ best.line) × ((i : ℕ) (work : Work) → i < C.count crew.now → C.leaves crew.now i work → IsNoHigher (Some best) work.mate) }
    ensures refused { OnErr result ((i : ℕ) × (work : Work) × (i < C.count crew.now) × C.leaves crew.now i work × (work.refused ≡ true)) }
{
    if let Some(mate) = lowest_mate(task, moves, crew) {
        return Ok(RoundAnswer::Mate(led(task, moves, &mate)));
    }
    if are_whole(crew) {
        return Ok(RoundAnswer::NoneWithin);
    }
    if is_spent(crew) {
        return Ok(RoundAnswer::Spent);
    }
    Err(NoMemory)
}
