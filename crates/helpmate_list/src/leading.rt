//! Lists of lines, and lines with a move in front.

ghost use Rattle.std.specs.Prelude.{◌≡◌, ◌≤◌, ◌∷◌, ◌++◌, length, map, take, IfOk};
ghost use Rattle.cha_moves.specs.MateLines.{mate_lines};

use crate::answers::Lines;
use cha_board::{Color, Position};
use cha_list::NoMemory;
use cha_moves::{Move, Moves, is_mate};
use std::alloc::Global;

/// A line with a move in front.
fn led(alloc: Global, first: Move, rest: &[Move]) -> Result<Moves, NoMemory>
    ensures { IfOk result (λ line. line ≡ first ∷ rest.now) }
{
    let mut line = Vec::with_capacity(alloc, 6)?;
    line.push(first)?;
    for m in rest {
        line.push(*m)?;
    }
    Ok(Moves::from_vec(line))
}

/// Appends lines with a move in front of each, up to `most` lines in all.
pub fn add_led(
    alloc: Global,
    lines: &mut Lines,
    first: Move,
    rest: &[Moves],
    most: usize,
) -> Result<(), NoMemory>
    requires { length lines.old ≤ most }
    ensures { IfOk result (λ _. lines.new ≡ take most (lines.old ++ map (λ line. first ∷ line) rest.now)) }
{
    for line in rest {
        if lines.items().len() < most {
            lines.push(led(alloc, first, line.items())?)?;
        }
    }
    Ok(())
}

/// The line of no move, where a position is a mate.
#[tactic(auto, unfolding(cha_moves::specs::MateLines::mate_lines))]
pub fn standing_lines(alloc: Global, position: &Position, winner: Color) -> Result<Lines, NoMemory>
    ensures { IfOk result (λ lines. lines ≡ mate_lines 0 position.now winner) }
{
    let mut lines = Lines::new(alloc);
    if is_mate(position, winner) {
        lines.push(Moves::new(alloc))?;
    }
    Ok(lines)
}
