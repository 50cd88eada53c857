//! Which moves leave the mover's own king unattacked (Laws of Chess, Article 3.9.2).

ghost use Rattle.std.specs.Prelude.{ℕ, ◌≡◌, false, IsTrue};
ghost use Rattle.std.specs.Bool.{OnFalse};
ghost use Rattle.cha_board.specs.declared.men.Color.{Color as Side};
ghost use Rattle.cha_board.specs.Board.{has_one_king};
ghost use Rattle.cha_moves.specs.Moves.{is_pseudo_legal, is_en_passant, men_after, is_legal_in};

use crate::changes::men_made;
use crate::chess_move::Move;
use crate::goes::goes_en_passant;
use cha_board::{Men, Position, Square};

/// The men after a move that may be made but for what its king suffers.
fn men_kept(position: &Position, m: Move) -> Men
    requires { IsTrue (is_pseudo_legal position.now m) }
    ensures value { result ≡ men_after position.now m }
    ensures kings { (c : Side) → IsTrue (has_one_king result c) }
{
    m.known();
    // What is said of the men rests on the position being valid.
    position.known();
    men_made(position, m)
}

/// Whether a pseudo-legal move leaves its own king unattacked, so that it is legal.
#[tactic(auto, unfolding(crate::specs::Moves::is_legal_in))]
pub fn stays_safe(position: &Position, m: Move) -> bool
    requires { IsTrue (is_pseudo_legal position.now m) }
    ensures { result ≡ is_legal_in position.now m }
{
    !men_kept(position, m).in_check(position.side())
}

/// Whether a pawn of the side to move on a square may capture en passant.
pub fn may_pass(position: &Position, s: Square) -> bool
    ensures { OnFalse result ((t : ℕ) → is_en_passant position.now s t ≡ false) }
{
    match position.target() {
        None => false,
        Some(target) => goes_en_passant(position, s, target),
    }
}
