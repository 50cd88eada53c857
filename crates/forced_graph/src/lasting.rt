//! Moves that change a position for good.

ghost use Rattle.std.specs.Prelude.{◌↔◌, IsTrue};
ghost use Rattle.forced_graph.specs.Lasting.{IsLasting};

use cha_board::{Kind, Position, is_man_of};
use cha_moves::Move;

/// Whether a move changes what no later move brings back: a capture, a pawn's move, or one by which a castling right or an
/// en passant target goes. Only after such a move can there be less material, or closed sets be smaller than they were.
#[tactic(auto, unfolding(crate::specs::Lasting::IsLasting))]
pub fn is_lasting(before: &Position, by: Move, next: &Position) -> bool
    ensures { IsTrue result ↔ IsLasting before.now by next.now }
{
    is_man_of(before.man(by.from), before.side(), Kind::Pawn)
        || before.man(by.to).is_some()
        || before.rights() != next.rights()
        || before.target().is_some()
}
