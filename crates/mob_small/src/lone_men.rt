//! The verdict of lone minor pieces: a knight beside queens, and bishops of one colour beside rooks, queens and bishops of that
//! colour.

ghost use Rattle.std.specs.Prelude.{◌↔◌, IsTrue};
ghost use Rattle.cha_board.specs.declared.men.Kind.TheVariants.{Knight};
ghost use Rattle.cha_board.specs.Men.{other_color};
ghost use Rattle.mob_small.specs.Small.{HasOneBeside};
ghost use Rattle.mob_small.specs.Lone.{HasOnly, is_queen, HasMenOn, HasOneColor, IsLoneUnwinnable};

use crate::one_color::{bishops_on, heavy_or_bishops_on};
use cha_board::{Color, Kind, Position};
use cha_moves::is_mate;

/// Whether a position has lone minor pieces with which a side cannot mate: beside the kings stand one knight of the side and
/// only queens of the other; or only bishops of the side on squares of one colour, only rooks, queens, and bishops on squares
/// of that colour of the other, and the position itself is no mate. It takes no memory.
pub fn lone_verdict(position: &Position, winner: Color) -> bool
    ensures { IsTrue result ↔ IsLoneUnwinnable position.now winner }
{
    is_lone_knight(position, winner)
        || (has_one_color(position, winner) && !is_mate(position, winner))
}

/// Whether a side has one man beside its king, a knight, and the other only queens.
fn is_lone_knight(position: &Position, winner: Color) -> bool
    ensures { IsTrue result ↔ HasOneBeside position.now.men winner Knight
        × HasOnly position.now.men (other_color winner) (is_queen (other_color winner)) }
{
    has_one_knight(position, winner) && has_only_queens(position, winner.other())
}

/// Whether a side has only bishops on squares of some one colour, and the other only rooks, queens and such bishops.
fn has_one_color(position: &Position, winner: Color) -> bool
    ensures { IsTrue result ↔ HasOneColor position.now.men winner }
{
    has_bishops_on(position, winner, Color::White) || has_bishops_on(position, winner, Color::Black)
}

/// Whether a side has one man beside its king, a knight.
fn has_one_knight(position: &Position, of: Color) -> bool
    ensures { IsTrue result ↔ HasOneBeside position.now.men of Knight }
{
    position.known();
    match position.men(of, Kind::Knight).first() {
        None => false,
        Some(at) => position.non_kings(of).without(at).is_empty(),
    }
}

/// Whether a side has only queens beside its king.
fn has_only_queens(position: &Position, of: Color) -> bool
    ensures { IsTrue result ↔ HasOnly position.now.men of (is_queen of) }
{
    position.known();
    position.non_kings(of).within(position.men(of, Kind::Queen))
}

/// Whether a side has only bishops on squares of this colour, and the other only rooks, queens and such bishops.
fn has_bishops_on(position: &Position, winner: Color, square: Color) -> bool
    ensures { IsTrue result ↔ HasMenOn square position.now.men winner }
{
    position.known();
    let loser = winner.other();
    position
        .non_kings(winner)
        .within(bishops_on(position, winner, square))
        && position
            .non_kings(loser)
            .within(heavy_or_bishops_on(position, loser, square))
}
