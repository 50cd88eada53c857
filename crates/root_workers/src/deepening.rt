//! The rounds, one after the other.

ghost use Rattle.std.specs.Prelude.{◌≡◌, ℕ, ◌+◌, ◌-◌, ◌<◌, ◌≤◌, length, List, Some, None, Ok, IsNone, IfOk, OnOk, OnErr, true};
ghost use Rattle.cha_board.specs.Men.{other_color};
ghost use Rattle.cha_moves.specs.Step.{Move as Step};
ghost use Rattle.cha_moves.specs.Moves.{legal as legal_moves};
ghost use Rattle.cha_moves.specs.Ends.{IsMated, IsMatingLine, IsUnwinnable, HasNoMateWithin};
ghost use Rattle.cha_fact.specs.Keys.{key_of};
ghost use Rattle.helpmate.specs.Rounds.{IsAnswer};
ghost use Rattle.root_workers.specs.declared.work.Work.{Work};
ghost use Rattle.root_workers.specs.Shares.{IsSpent, AllGrowTo};
ghost use Rattle.root_workers.specs.RoundAnswers.{IsMateEnd, IsEnd, IsAmple, RoundsCalls, claim_of};
ghost use Rattle.root_workers.specs.Deepens.{plies_of, IsFrom, RoundSearches, DeepenCalls, KeepCalls, KeptCalls};

use crate::answers::RoundsEnd;
use crate::gather::gathered;
use crate::task::RoundTask;
use crate::workers::Crew;
use cha_board::{Color, Position};
use cha_fact::{Fact, Key, Probe, Proved};
use cha_limits::Limits;
use cha_list::NoMemory;
use cha_moves::{Move, legal};
use helpmate::{RoundAnswer, decided};
use std::alloc::Global;

/// The allowance of each worker in a round of a depth: none up to 2 plies, and then the budget.
fn allowance_of(limits: &Limits, depth: u8) -> Option<u32>
    ensures bounded { IsNone result → depth < 3 }
    ensures value { (n : ℕ) → result ≡ Some n → (3 ≤ depth) × (n ≡ limits.now.budget) }
{
    if depth < 3 {
        return None;
    }
    Some(limits.budget())
}

/// One round.
fn one_round<C: Crew>(
    alloc: Global,
    task: &RoundTask,
    moves: &[Move],
    crew: &mut C,
) -> Result<RoundAnswer, NoMemory>
    requires ready { C.ready crew.old }
    requires listed { moves.now ≡ legal_moves task.now.position }
    requires some { 1 ≤ task.now.depth }
    requires few { task.now.depth ≤ 8 }
    requires bounded { IsNone task.now.allowance → task.now.depth ≤ 3 }
    requires running { IsMated task.now.position (other_color task.now.winner) → ⊥ }
    ensures stays_ready { C.ready crew.new }
    ensures count { C.count crew.new ≡ C.count crew.old }
    ensures holds { IfOk result (IsAnswer task.now.position task.now.winner task.now.depth 40) }
    ensures spent { result ≡ Ok RoundAnswer.Spent → IsSpent task.now }
    ensures searched { result ≡ Ok RoundAnswer.NoneWithin → RoundSearches C.made_by crew.old crew.new task.now (C.count crew.old) }
    ensures refused { OnErr result ((i : ℕ) × (work : Work) × (i < C.count crew.new) × C.leaves crew.new i work × (work.refused ≡ true)) }
    ensures grow { AllGrowTo task.now.depth C.made_by crew.old crew.new (C.count crew.old) }
{
    crew.share_out(alloc, task, moves);
    gathered(task, moves, crew)
}

/// Gives what the rounds found out to keep. Memory is taken for the line of a mate; where it is refused nobody is called.
fn keep<C: Crew>(
    alloc: Global,
    position: &Position,
    winner: Color,
    end: &RoundsEnd,
    crew: &mut C,
) -> Result<(), NoMemory>
    requires ready { C.ready crew.old }
    requires mate { (line : List Step) → end.now ≡ RoundsEnd.Mate line → IsMatingLine position.now winner line }
    requires none { (depth : ℕ) → end.now ≡ RoundsEnd.NoneWithin depth → HasNoMateWithin position.now winner depth }
    ensures stays_ready { C.ready crew.new }
    ensures kept { OnOk result (KeepCalls C.made crew.old crew.new (claim_of position.now winner end.now)) }
    ensures unchanged { OnErr result (crew.new ≡ crew.old) }
{
    let row = match end {
        RoundsEnd::Mate(line) => Proved::mate(alloc, position, winner, line)?,
        RoundsEnd::NoneWithin(depth) => Proved::none(position, winner, *depth),
    };
    let _stored = crew.store(row);
    Ok(())
}

/// The rounds from a depth on at which there is no mate.
fn deepen<C: Crew>(
    alloc: Global,
    position: &Position,
    winner: Color,
    limits: &Limits,
    from: u8,
    crew: &mut C,
) -> Result<RoundsEnd, NoMemory>
    requires ready { C.ready crew.old }
    requires none { HasNoMateWithin position.now winner from }
    requires more { from < limits.now.depth }
    ensures stays_ready { C.ready crew.new }
    ensures count { C.count crew.new ≡ C.count crew.old }
    ensures holds { IfOk result (IsEnd position.now winner limits.now) }
    ensures from { IfOk result (IsFrom from) }
    ensures calls { DeepenCalls C.made_by crew.old crew.new position.now winner from (C.count crew.old) result }
    ensures grow { AllGrowTo limits.now.depth C.made_by crew.old crew.new (C.count crew.old) }
{
    let moves = legal(alloc, position)?;
    let mut depth = from;
    while depth < limits.depth() {
        let task = RoundTask {
            position: *position,
            winner,
            depth: depth + 1,
            allowance: allowance_of(limits, depth + 1),
        };
        let round = one_round(alloc, &task, &moves, crew)?;
        match round {
            RoundAnswer::Mate(line) => return Ok(RoundsEnd::Mate(line)),
            RoundAnswer::Spent => return Ok(RoundsEnd::NoneWithin(depth)),
            RoundAnswer::NoneWithin => {}
        }
        depth += 1;
    }
    Ok(RoundsEnd::NoneWithin(depth))
}

/// The rounds from a depth on, whose answer is given to keep. Where memory to keep it is refused, they end for want of memory.
fn deepen_and_keep<C: Crew>(
    alloc: Global,
    position: &Position,
    winner: Color,
    limits: &Limits,
    from: u8,
    crew: &mut C,
) -> Result<RoundsEnd, NoMemory>
    requires ready { C.ready crew.old }
    requires none { HasNoMateWithin position.now winner from }
    requires more { from < limits.now.depth }
    ensures stays_ready { C.ready crew.new }
    ensures count { C.count crew.new ≡ C.count crew.old }
    ensures holds { IfOk result (IsEnd position.now winner limits.now) }
    ensures from { IfOk result (IsFrom from) }
    ensures calls { DeepenCalls C.made_by crew.old crew.new position.now winner from (C.count crew.old) result }
    ensures kept { KeptCalls C.made crew.old crew.new position.now winner limits.now.depth result }
{
    let end = deepen(alloc, position, winner, limits, from, crew)?;
    keep(alloc, position, winner, &end, crew)?;
    Ok(end)
}

/// Up to which depth a fact that does not decide shows that there is no mate.
fn known_plies(position: &Position, winner: Color, row: &Proved) -> u8
    requires key { key_of row.now.position row.now.winner ≡ key_of position.now winner }
    requires running { IsMated position.now (other_color winner) → ⊥ }
    ensures value { result ≡ plies_of row.now.fact }
    ensures none { HasNoMateWithin position.now winner result }
{
    // Keys tell valid positions.
    position.known();
    row.known();
    match row.fact() {
        Fact::Mate(_) => 0,
        Fact::NoneWithin(within) => *within,
    }
}

/// Looks for a mate for a side in rounds of 1, 2 and so on up to so many plies as the limits have, whose root moves the workers
/// of a crew share out. The position is no mate for the side.
///
/// The position is asked for first. Where what is found decides for the depth of the limits, that is the answer and nothing is
/// expanded. In rounds of 1 and 2 plies as many positions are expanded as need be; from 3 on each worker expands at most the
/// budget in a round, and where one has spent it and none has met a mate, the depth before is the answer. Of the mates that
/// workers met the one with the lowest root move is the answer. An answer that was searched for is stored (this project).
pub fn rounds<C: Crew>(
    alloc: Global,
    position: &Position,
    winner: Color,
    limits: &Limits,
    crew: &mut C,
) -> Result<RoundsEnd, NoMemory>
    requires ready { C.ready crew.old }
    requires running { IsMated position.now (other_color winner) → ⊥ }
    ensures stays_ready { C.ready crew.new }
    ensures count { C.count crew.new ≡ C.count crew.old }
    ensures holds { IfOk result (IsEnd position.now winner limits.now) }

    // Whatever the number of workers and the order of their turns.
    ensures finds_in_two { IfOk result (λ end. (line : List Step) → IsMatingLine position.now winner line → length line ≤ 2 → IsMateEnd end) }
    ensures finds { IfOk result (λ end. (line : List Step) → IsAmple position.now limits.now → IsMatingLine position.now winner line → length line ≤ limits.now.depth → IsMateEnd end) }
    ensures none { IfOk result (λ end. IsAmple position.now limits.now → IsUnwinnable position.now winner → end ≡ RoundsEnd.NoneWithin limits.now.depth) }
    ensures knows { C.knows crew.new }

    ensures calls { RoundsCalls C.made C.made_by (C.count crew.old) crew.old crew.new position.now winner limits.now result }
{
    let depth = limits.depth();
    match crew.probe(&Key::of(position, winner)) {
        Probe::Found(row) => match decided(position, winner, &row, depth) {
            Some(RoundAnswer::Mate(line)) => Ok(RoundsEnd::Mate(line)),
            Some(RoundAnswer::NoneWithin) => Ok(RoundsEnd::NoneWithin(depth)),
            Some(RoundAnswer::Spent) => unreachable!(),
            None => {
                let from = known_plies(position, winner, &row);
                deepen_and_keep(alloc, position, winner, limits, from, crew)
            }
        },
        Probe::Miss => deepen_and_keep(alloc, position, winner, limits, 0, crew),
        Probe::Refused => deepen_and_keep(alloc, position, winner, limits, 0, crew),
    }
}
