//! The guide that takes squares away from the loser's king.

ghost use Rattle.std.specs.Prelude.{◌<◌, ◌≤◌};

use crate::army::Army;
use crate::pawns::ranks_to_promotion;
use cha_board::{Color, Kind, Position, Square, SquareSet, aims_alone, attacks, steps_between};

/// What each square counts to which the loser's king may go.
const FLIGHT: u32 = 4;

/// What each king's step of the loser's king to the edge of the board counts.
const STEP_TO_EDGE: u32 = 2;

/// What each rank counts that a pawn is from the last one.
const RANK: u32 = 2;

/// The most that a position counts.
const MOST: u32 = 63;

/// The squares next to the loser's king that hold no man of the loser and that the winner does not attack.
pub fn flights(position: &Position, winner: Color) -> SquareSet {
    let loser = winner.other();
    let around = aims_alone(loser, Kind::King, position.king(loser));
    let mut flights = around.minus(position.placement().of_side(loser));
    for at in flights {
        flights = flights.placed(at, !attacks(position, winner, at));
    }
    flights
}

/// How many king's steps a square is from the nearest square at the edge of the board.
fn steps_to_edge(at: Square) -> u8
    ensures { result < 8 }
{
    let by_file = at.file().min(7 - at.file());
    let by_rank = at.rank().min(7 - at.rank());
    by_file.min(by_rank)
}

/// How far the most advanced pawn of a side is from promotion, where the side has a pawn and neither queen nor rook.
fn pawn_away(own: &Army) -> u32
    ensures { result ≤ 14 }
{
    if !own.heavy().is_empty() {
        return 0;
    }
    match ranks_to_promotion(own.side, own.pawns) {
        None => 0,
        Some(ranks) => RANK * u32::from(ranks),
    }
}

/// How far a position is from a mate of a king without flights.
pub fn flight_guide(position: &Position, winner: Color) -> u8
    ensures { result < 64 }
{
    let own = Army::of(position, winner);
    let king = position.king(winner.other());
    let squares = FLIGHT * u32::from(flights(position, winner).len());
    let edge = STEP_TO_EDGE * u32::from(steps_to_edge(king));
    let kings = u32::from(steps_between(own.king, king));
    MOST.min(squares + edge + kings + pawn_away(&own)) as u8
}
