//! Sides for which sets often show that they cannot mate.

ghost use Rattle.std.specs.Prelude.{◌≡◌};
ghost use Rattle.mob_solve.specs.Weak.{is_weak as is_weak_side};

use cha_board::{Color, Kind, Position};

/// Whether a side has neither a queen nor a rook, nor a pawn that may step ahead. Sets often show that it cannot mate.
#[tactic(auto, unfolding(crate::specs::Weak::is_weak))]
pub fn is_weak(position: &Position, side: Color) -> bool
    ensures { result ≡ is_weak_side position.now side }
{
    let heavy = position
        .men(side, Kind::Queen)
        .joined(position.men(side, Kind::Rook));
    let steps = position
        .men(side, Kind::Pawn)
        .ahead(side)
        .minus(position.occupied());
    heavy.is_empty() && steps.is_empty()
}
