//! Lines of moves that end in mate.

ghost use Rattle.std.specs.Prelude.{◌≡◌, ◌↔◌, ℕ, List, length, IsTrue, Contains};
ghost use Rattle.cha_board.specs.declared.men.Color.{Color as Side};
ghost use Rattle.cha_board.specs.Board.{Board};
ghost use Rattle.cha_moves.specs.Step.{Move as Step};
ghost use Rattle.cha_moves.specs.Ends.{IsMatingLine};
ghost use Rattle.cha_moves.specs.MateLines.{mate_lines};

use crate::afterwards::after;
use crate::chess_move::Move;
use crate::ends::is_mate;
use crate::list::is_legal;
use cha_board::{Color, Position};

/// Whether each move is legal in its turn, and the winner's opponent is checkmated after the last.
pub fn replays(position: &Position, winner: Color, moves: &[Move]) -> bool
    ensures { IsTrue result ↔ IsMatingLine position.now winner moves.now }
{
    let mut now = *position;
    for m in moves {
        if !is_legal(&now, *m) {
            return false;
        }
        now = after(&now, *m);
    }
    is_mate(&now, winner)
}

/// The law of mate lines: of the lists of exactly n moves, those that `mate_lines` names are the mating lines, and no
/// others.
pub fn mate_lines_mate()
    ensures { (n : ℕ) (q : Board) (winner : Side) (ms : List Step) → Contains (mate_lines n q winner) ms ↔ (IsMatingLine q winner ms × (length ms ≡ n)) }
{}
