//! The squares next to a square.

ghost use Rattle.std.specs.Prelude.{◌≡◌, ◌==◌};
ghost use Rattle.cha_board.specs.Squares.{steps_apart};
ghost use Rattle.mob_check.specs.Nearness.{next_to};

use cha_board::{Color, Kind, Square, SquareSet, aims_alone};

/// The squares next to a square: those to which a king steps.
#[tactic(auto, unfolding(crate::specs::Nearness::next_to, crate::specs::Nearness::is_next_to, cha_board::specs::Squares::aims_at))]
pub fn squares_near(square: Square) -> SquareSet
    ensures { result ≡ next_to square }
{
    aims_alone(Color::White, Kind::King, square)
}

/// Whether a square is next to another.
pub fn is_near(one: Square, other: Square) -> bool
    ensures { result ≡ (steps_apart one other == 1) }
{
    squares_near(one).has(other)
}
