//! What the parts of workers come to.

ghost use Rattle.std.specs.Prelude.{◌≡◌, ◌≤◌, ◌<◌, take, length, IfOk, Contains};
ghost use Rattle.cha_moves.specs.Moves.{legal as legal_moves};
ghost use Rattle.cha_moves.specs.MateLines.{mate_lines};
ghost use Rattle.helpmate_list.specs.Shortest.{HasNoMateBelow};
ghost use Rattle.helpmate_list.specs.Parts.{AreParts, HasRoot};

use crate::answers::Lines;
use crate::leading::{add_led, standing_lines};
use crate::parts::{MOST_KEPT, MateTask, RootLines};
use crate::spread::Spread;
use cha_list::NoMemory;
use cha_moves::Move;
use std::alloc::Global;

/// What was found behind the root move with this number.
fn of_root(found: &[RootLines], root_move: usize) -> &RootLines
    requires { HasRoot found.now root_move }
    ensures among { Contains found.now result.now }
    ensures named { result.now.root_move ≡ root_move }
{
    for behind in found {
        if behind.root_move == root_move {
            return behind;
        }
    }
    unreachable!()
}

/// The first lines of all parts, in the order of root moves, whatever the order in which the parts were done.
fn gathered(
    alloc: Global,
    task: &MateTask,
    moves: &[Move],
    parts: &[Result<Vec<RootLines>, NoMemory>],
) -> Result<Lines, NoMemory>
    requires listed { moves.now ≡ legal_moves task.now.position }
    requires some { 1 ≤ task.now.plies }
    requires a_worker { 0 < length parts.now }
    requires parts { AreParts task.now moves.now (length parts.now) parts.now }
    ensures { IfOk result (λ lines. lines ≡ take MOST_KEPT (mate_lines task.now.plies task.now.position task.now.winner)) }
{
    let mut lines = Lines::new(alloc);
    for (root_move, m) in moves.iter().enumerate() {
        match &parts[root_move % parts.len()] {
            Ok(found) => {
                let behind = of_root(found.as_slice(), root_move);
                add_led(alloc, &mut lines, *m, behind.lines.items(), MOST_KEPT)?;
            }
            Err(_) => return Err(NoMemory),
        }
    }
    Ok(lines)
}

/// The first lines of so many plies that mate from the root, of which one more than an answer has is kept.
pub fn root_lines<S: Spread>(
    hands: &S,
    alloc: Global,
    task: &MateTask,
    moves: &[Move],
    count: usize,
) -> Result<Lines, NoMemory>
    requires ready { S.ready hands.now }
    requires listed { moves.now ≡ legal_moves task.now.position }
    requires least { HasNoMateBelow task.now.position task.now.winner task.now.plies }
    requires a_worker { 0 < count }
    ensures { IfOk result (λ lines. lines ≡ take MOST_KEPT (mate_lines task.now.plies task.now.position task.now.winner)) }
{
    if task.plies == 0 {
        return standing_lines(alloc, &task.position, task.winner);
    }
    let parts = hands.parts(alloc, task, moves, count)?;
    gathered(alloc, task, moves, &parts)
}
