//! Bishops on squares of one colour, rooks and queens, as sets of squares.

ghost use Rattle.std.specs.Prelude.{◌≡◌};
ghost use Rattle.cha_board.specs.Board.{man_at};
ghost use Rattle.cha_board.specs.SquareSets.{set_of};
ghost use Rattle.mob_small.specs.Lone.{is_bishop_on, is_heavy_or_bishop_on};

use cha_board::{Color, Kind, Position, SquareSet};

/// The squares of a side's bishops that stand on squares of this colour.
pub(crate) fn bishops_on(position: &Position, of: Color, square: Color) -> SquareSet
    ensures { result ≡ set_of (λ u. is_bishop_on square of u (man_at position.now.men u)) }
{
    position
        .men(of, Kind::Bishop)
        .common(SquareSet::of_color(square))
}

/// The squares of a side's rooks and queens, and of its bishops that stand on squares of this colour.
pub(crate) fn heavy_or_bishops_on(position: &Position, of: Color, square: Color) -> SquareSet
    ensures { result ≡ set_of (λ u. is_heavy_or_bishop_on square of u (man_at position.now.men u)) }
{
    position
        .men(of, Kind::Rook)
        .joined(position.men(of, Kind::Queen))
        .joined(bishops_on(position, of, square))
}
