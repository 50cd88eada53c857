//! Where men are in reach in sets as they grow, and the ground that they make.

ghost use Rattle.std.specs.Prelude.{◌≡◌};
ghost use Rattle.std.specs.List.{list_any};
ghost use Rattle.cha_board.specs.SquareSets.{set_of};
ghost use Rattle.mob_sets.specs.Rows.{kinds};
ghost use Rattle.mob_check.specs.Grounds.{is_reached, ground_of as ground_by};
ghost use Rattle.mob_solve.specs.Reaching.{sets_in};

use crate::reach::Reach;
use cha_board::{Color, Kind, Position, Square, SquareSet};
use mob_check::Ground;

/// The ground that sets as they grow make of a position.
pub fn ground_of(position: &Position, reach: &Reach) -> Ground
    ensures { result ≡ ground_by position.now (sets_in reach.now) }
{
    // The number of a set tells that it has 64 truth values.
    let _number = reach.loose.bits();
    Ground::of(
        position,
        reach.loose,
        reached_squares(position, reach, Color::White),
        reached_squares(position, reach, Color::Black),
    )
}

/// The squares on which men of a side other than its king are in reach.
fn reached_squares(position: &Position, reach: &Reach, side: Color) -> SquareSet
    ensures { result ≡ set_of (is_reached position.now (sets_in reach.now) side) }
{
    let own = position.non_kings(side);
    let mut squares = SquareSet::empty();
    for index in 0..64 {
        let origin = Square::at(index);
        if own.has(origin) {
            squares = squares.joined(all_rows(reach, origin));
        }
    }
    squares
}

/// The squares on which the man of an origin is in reach as any kind.
fn all_rows(reach: &Reach, origin: Square) -> SquareSet
    ensures { result ≡ set_of (λ u. list_any (λ k. (sets_in reach.now).has origin k u) kinds) }
{
    reach
        .row(origin, Kind::Pawn)
        .joined(reach.row(origin, Kind::Knight))
        .joined(reach.row(origin, Kind::Bishop))
        .joined(reach.row(origin, Kind::Rook))
        .joined(reach.row(origin, Kind::Queen))
        .joined(reach.row(origin, Kind::King))
}
