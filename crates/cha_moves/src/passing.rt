//! The squares that a double step and a capture en passant concern beside those that the pawn leaves and enters (Laws of
//! Chess, Articles 3.7.2 and 3.7.3.1).

ghost use Rattle.std.specs.Prelude.{◌≡◌, ◌≢◌};
ghost use Rattle.cha_board.specs.Men.{other_color};
ghost use Rattle.cha_board.specs.Squares.{rank_of, last_rank};
ghost use Rattle.cha_moves.specs.Moves.{victim_of, middle};

use cha_board::{Color, Square};

/// The square midway between two squares of one file, which a double step passes over.
pub fn passed_over(from: Square, to: Square) -> Square
    ensures { result ≡ middle from to }
{
    Square::at((from.index() + to.index()) / 2)
}

/// The square of the pawn that a side captures en passant onto a square: the one ahead of it, as the other side sees
/// it. No pawn of the side goes to its own first rank.
pub fn captured_on(side: Color, onto: Square) -> Square
    requires { rank_of onto ≢ last_rank (other_color side) }
    ensures { result ≡ victim_of side onto }
{
    onto.ahead(side.other())
}
