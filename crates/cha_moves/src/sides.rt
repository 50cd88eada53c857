//! The ranks of a side's pawns (Laws of Chess, Article 3.7).

ghost use Rattle.std.specs.Prelude.{◌≡◌};
ghost use Rattle.cha_board.specs.Squares.{last_rank};
ghost use Rattle.cha_moves.specs.Moves.{second_rank, fourth_rank};

use cha_board::Color;

/// The rank on which the pawns of a side begin.
pub fn first_pawn_rank(side: Color) -> u8
    ensures { result ≡ second_rank side }
{
    match side {
        Color::White => 1,
        Color::Black => 6,
    }
}

/// The rank that a double step of a side reaches.
pub fn double_step_rank(side: Color) -> u8
    ensures { result ≡ fourth_rank side }
{
    match side {
        Color::White => 3,
        Color::Black => 4,
    }
}

/// The rank on which the pawns of a side are promoted.
pub fn promotion_rank(side: Color) -> u8
    ensures { result ≡ last_rank side }
{
    match side {
        Color::White => 7,
        Color::Black => 0,
    }
}
