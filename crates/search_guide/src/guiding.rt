//! The value of a position by a guide.

ghost use Rattle.std.specs.Prelude.{◌<◌, IfSome};

use crate::balance::balance_guide;
use crate::choice::Guide;
use crate::corner::{HOPELESS, corner_guide};
use crate::flights::flight_guide;
use cha_board::{Color, Position};

/// How far a position is from a mate for a side, by a guide: from 0 for the nearest to 63. Nothing is claimed of how good it
/// is (this project).
pub fn guide(by: Guide, position: &Position, winner: Color) -> u8
    ensures { result < 64 }
{
    match by {
        Guide::Corner => corner_guide(position, winner),
        Guide::Flights => flight_guide(position, winner),
        Guide::Balance => balance_guide(position, winner),
    }
}

/// The same, or `None` where a guide other than `Flights`, which never does, tells that a side has nothing to mate with, now or after any
/// moves: a bare king, a lone knight against queens alone, or bishops of one colour against rooks, queens and bishops of that colour
/// alone. Nothing is claimed of that either.
pub fn hopeful_guide(by: Guide, position: &Position, winner: Color) -> Option<u8>
    ensures { IfSome result (λ number. number < 64) }
{
    let number = guide(by, position, winner);
    if by != Guide::Flights && number == HOPELESS {
        None
    } else {
        Some(number)
    }
}
