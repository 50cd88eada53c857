//! One worker's part of a round.

ghost use Rattle.std.specs.Prelude.{◌≡◌, ◌-◌, ◌<◌, ◌≤◌, Contains, Some, IsNone, IfOk};
ghost use Rattle.cha_moves.specs.Moves.{after as position_after, legal as legal_moves};
ghost use Rattle.helpmate.specs.Counted.{CountsPositions};
ghost use Rattle.helpmate.specs.Rounds.{IsAnswer, IsAllowed, RoundCalls};
ghost use Rattle.root_workers.specs.Shares.{IsShare, ShareCalls};
ghost use Rattle.root_workers.specs.Deepens.{PartCalls};
ghost use Rattle.root_workers.specs.Gathers.{left_after};

use crate::helping::Helper;
use crate::nowhere::Nowhere;
use crate::open_moves::OpenMoves;
use crate::task::RoundTask;
use crate::work::{RootMate, Work};
use cha_fact::Facts;
use cha_list::NoMemory;
use cha_moves::{Move, after};
use helpmate::{RoundAnswer, RoundDone, round};
use std::alloc::Global;

/// What is left of an allowance.
fn left_of(allowance: Option<u32>, positions: u32) -> Option<u32>
    requires { IsAllowed allowance positions }
    ensures { result ≡ left_after allowance positions }
{
    match allowance {
        Some(most) => Some(most - positions),
        None => None,
    }
}

/// Searches the position after a root move to one ply less.
fn search_root<F: Facts>(
    alloc: Global,
    task: &RoundTask,
    m: Move,
    left: Option<u32>,
    facts: &mut F,
) -> Result<RoundDone, NoMemory>
    requires ready { F.ready facts.old }
    requires legal { Contains (legal_moves task.now.position) m }
    requires some { 1 ≤ task.now.depth }
    requires few { task.now.depth ≤ 8 }
    requires bounded { IsNone left → task.now.depth ≤ 3 }
    ensures stays_ready { F.ready facts.new }
    ensures holds { IfOk result (λ done. IsAnswer (position_after task.now.position m) task.now.winner (task.now.depth - 1) 39 done.round) }
    ensures allowed { IfOk result (λ done. IsAllowed left done.positions) }
    ensures positions { IfOk result (λ done. CountsPositions (position_after task.now.position m) (task.now.depth - 1) done.positions) }
    ensures spent { IfOk result (λ done. done.round ≡ RoundAnswer.Spent → left ≡ Some done.positions) }
    ensures calls { RoundCalls F.made facts.old facts.new (position_after task.now.position m) task.now.winner (task.now.depth - 1) result }
{
    let next = after(&task.position, m);
    round(alloc, &next, task.winner, task.depth - 1, left, facts)
}

/// The most plies of a round that asks no place of facts. In so few a position can hardly be reached in two ways, and what was
/// learned in one round is a ply too little in the next.
const WITHOUT_FACTS: u8 = 4;

/// Searches the root moves of the worker with a number among `count` workers, in order, up to the first mate. A round of at most
/// four plies makes no call of the worker's place. In a deeper one a worker that has cleared its root moves helps with those that
/// are open still, with what is left of its allowance.
pub fn share_of<F: Facts>(
    alloc: Global,
    task: &RoundTask,
    moves: &[Move],
    number: u32,
    count: u32,
    open: &OpenMoves,
    facts: &mut F,
) -> Work
    requires ready { F.ready facts.old }
    requires listed { moves.now ≡ legal_moves task.now.position }
    requires some { 1 ≤ task.now.depth }
    requires few { task.now.depth ≤ 8 }
    requires bounded { IsNone task.now.allowance → task.now.depth ≤ 3 }
    requires number { number < count }
    requires count { count ≤ 16 }
    ensures stays_ready { F.ready facts.new }
    ensures share { IsShare task.now moves.now number count result }
    ensures calls { ShareCalls F.made facts.old facts.new task.now moves.now number count result }
{
    if task.depth <= WITHOUT_FACTS {
        let nobody = OpenMoves::none(alloc);
        return part_of(alloc, task, moves, number, count, &nobody, &mut Nowhere);
    }
    let work = part_of(alloc, task, moves, number, count, open, facts);
    open.close_part(number, count);
    work
}

/// Searches the root moves of a worker with a place that is asked whatever the depth, and then helps others.
fn part_of<F: Facts>(
    alloc: Global,
    task: &RoundTask,
    moves: &[Move],
    number: u32,
    count: u32,
    open: &OpenMoves,
    facts: &mut F,
) -> Work
    requires ready { F.ready facts.old }
    requires listed { moves.now ≡ legal_moves task.now.position }
    requires some { 1 ≤ task.now.depth }
    requires few { task.now.depth ≤ 8 }
    requires bounded { IsNone task.now.allowance → task.now.depth ≤ 3 }
    requires number { number < count }
    requires count { count ≤ 16 }
    ensures stays_ready { F.ready facts.new }
    ensures share { IsShare task.now moves.now number count result }
    ensures calls { PartCalls F.made facts.old facts.new task.now moves.now number count result }
{
    let mut work = Work::new(alloc);
    let mut left = task.allowance;
    let mut index = number as usize;
    while index < moves.len() {
        match search_root(alloc, task, moves[index], left, facts) {
            Ok(done) => {
                left = left_of(left, done.positions);
                match done.round {
                    RoundAnswer::Mate(line) => {
                        work.mate = Some(RootMate {
                            root_move: index as u32,
                            line,
                        });
                        return work;
                    }
                    RoundAnswer::Spent => {
                        work.spent = true;
                        return work;
                    }
                    RoundAnswer::NoneWithin => {}
                }
            }
            Err(_) => {
                work.refused = true;
                return work;
            }
        }
        let Ok(()) = work.cleared.push(index as u32) else {
            work.refused = true;
            return work;
        };
        open.close(index);
        index += count as usize;
    }
    Helper::new(alloc, task, open, number, count).help(left, facts);
    work
}
