//! The guide that takes men first, and then leads the loser's king into a corner.

ghost use Rattle.std.specs.Prelude.{◌<◌};

use crate::army::Army;
use crate::corners::{FARTHEST, least_corner};
use crate::force::want_of_force;
use crate::hopeless::is_hopeless;
use cha_board::{Color, Position};

/// What each man of the loser but its king counts.
const LOSERS_MAN: u32 = 3;

/// The value of a position in which nothing is to be found, and of no other.
pub const HOPELESS: u8 = 63;

/// How far a position is from a mate in a corner.
pub fn corner_guide(position: &Position, winner: Color) -> u8
    ensures { result < 64 }
{
    let own = Army::of(position, winner);
    let other = Army::of(position, winner.other());
    if own.is_minor() && is_hopeless(&own, &other) {
        return HOPELESS;
    }
    let men = LOSERS_MAN * u32::from(other.others().len());
    let force = want_of_force(&own, &other, position.occupied());
    let near = FARTHEST.min(men + force);
    FARTHEST.min(near + least_corner(&own, &other, FARTHEST - near)) as u8
}
