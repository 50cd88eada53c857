//! The root moves of one worker.

ghost use Rattle.std.specs.Prelude.{◌≡◌, ◌≤◌, ◌<◌, IfOk};
ghost use Rattle.cha_moves.specs.Moves.{legal as legal_moves};
ghost use Rattle.helpmate_list.specs.Shortest.{HasNoMateBelow};
ghost use Rattle.helpmate_list.specs.Parts.{IsPart};

use crate::answers::{Lines, MOST_LINES};
use crate::first::first_lines;
use cha_board::{Color, Position};
use cha_list::NoMemory;
use cha_moves::{Move, after};
use shard_table::Shard;
use std::alloc::Global;

/// How many lines are kept of a root move: by one more than an answer has, it shows that there are more.
pub const MOST_KEPT: usize = MOST_LINES + 1;

/// How many positions without a mate a worker keeps.
const MOST_KNOWN: u32 = 65_536;

/// What is looked for: all lists of so many moves by which a side mates from the root.
#[derive(Clone, Copy, Debug, PartialEq, Eq)]
pub struct MateTask {
    pub position: Position,
    pub winner: Color,
    pub plies: u8,
}

/// What was found behind a root move.
#[derive(Drop)]
pub struct RootLines {
    /// The number of the move among the root's legal moves, from 0.
    pub root_move: usize,
    /// The first lines behind the move.
    pub lines: Lines,
}

/// The lines behind the root moves of one of `count` workers: the moves whose number modulo `count` is the worker's `number`. It
/// remembers positions without a mate in a shard of its own.
pub fn part_of(
    alloc: Global,
    task: &MateTask,
    moves: &[Move],
    number: usize,
    count: usize,
) -> Result<Vec<RootLines>, NoMemory>
    requires listed { moves.now ≡ legal_moves task.now.position }
    requires some { 1 ≤ task.now.plies }
    requires least { HasNoMateBelow task.now.position task.now.winner task.now.plies }
    requires number { number < count }
    ensures { IfOk result (λ found. IsPart task.now moves.now number count found.items) }
{
    let mut known = Shard::new(alloc, MOST_KNOWN)?;
    let mut found = Vec::new(alloc);
    for (root_move, m) in moves.iter().enumerate() {
        if root_move % count == number {
            let next = after(&task.position, *m);
            let lines = first_lines(
                alloc,
                &next,
                task.winner,
                task.plies - 1,
                MOST_KEPT,
                &mut known,
            )?;
            found.push(RootLines { root_move, lines })?;
        }
    }
    Ok(found)
}
