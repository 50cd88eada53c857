//! How a position stands (Laws of Chess, Articles 5.1.1 and 5.2.1).

ghost use Rattle.std.specs.Prelude.{◌≡◌, ◌↔◌, IsTrue};
ghost use Rattle.cha_board.specs.Men.{other_color};
ghost use Rattle.cha_moves.specs.Ends.{IsMated};
ghost use Rattle.cha_moves.specs.MateLines.{is_mated};
ghost use Rattle.cha_moves.specs.Standings.{Stands, standing_of};

use crate::any::any_legal;
use cha_board::{Color, Position};

/// How a position stands.
#[derive(Clone, Copy, Debug, PartialEq, Eq)]
pub enum Standing {
    /// The side to move is checkmated; the other side, which is named, has won.
    Mate(Color),
    /// The side to move has no legal move and is not in check.
    Stalemate,
    /// The side to move has a legal move.
    Running,
}

/// Whether a position is a mate for a winner: its opponent is to move, is in check and has no legal move (Article 5.1.1).
/// It takes no memory.
#[tactic(auto, unfolding(crate::specs::MateLines::is_mated), using(crate::proofs::Mated::mated_is, crate::proofs::Mated::mated_itself))]
pub fn is_mate(position: &Position, winner: Color) -> bool
    ensures value { result ≡ is_mated position.now (other_color winner) }
    ensures mated { IsTrue result ↔ IsMated position.now (other_color winner) }
{
    let loser = winner.other();
    position.side().is(loser) && position.in_check(loser) && !any_legal(position)
}

/// How a position stands: mate, stalemate or neither. It takes no memory.
pub fn state(position: &Position) -> Standing
    ensures value { result ≡ standing_of position.now }
    ensures stands { Stands position.now result }
{
    let winner = position.side().other();
    if is_mate(position, winner) {
        Standing::Mate(winner)
    } else if any_legal(position) {
        Standing::Running
    } else {
        Standing::Stalemate
    }
}
