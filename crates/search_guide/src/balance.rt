//! The guide that weighs a corner, the squares that the loser's king has, and the loser's men against each other.

ghost use Rattle.std.specs.Prelude.{◌<◌, ◌≤◌};

use crate::army::Army;
use crate::corner::HOPELESS;
use crate::corners::{FARTHEST, NO_BLOCKER, beside, blockers, corners, knights_away};
use crate::flights::flights;
use crate::hopeless::is_hopeless;
use crate::king_walks::steps_to_nearest;
use crate::kings::{kings_away, kings_from_corners};
use cha_board::{Color, Position, Square, SquareSet};
use cha_moves::promotion_rank;

/// What each man of the loser but its king counts.
const LOSERS_MAN: u32 = 3;

/// How far a pawn is from a square beside a corner: not at all where it stands there, and else its ranks to promotion, the promotion,
/// and king's steps from there.
fn pawn_away(side: Color, pawn: Square, beside: SquareSet) -> u32
    ensures { result ≤ 15 }
{
    if beside.has(pawn) {
        return 0;
    }
    let goal = Square::on(pawn.file(), promotion_rank(side));
    let ranks = u32::from(pawn.rank().abs_diff(goal.rank()));
    match steps_to_nearest(beside, SquareSet::single(goal)) {
        None => 1 + ranks,
        Some(steps) => 1 + ranks + u32::from(steps),
    }
}

/// How far the loser's men are from blocking one of the two squares beside a corner.
fn least_blocker(own: &Army, other: &Army, corner: Square) -> u32
    ensures { result ≤ NO_BLOCKER }
{
    let beside = beside(corner);
    let mut least = match steps_to_nearest(beside, blockers(own, other, corner)) {
        None => NO_BLOCKER,
        Some(steps) => u32::from(steps),
    };
    for pawn in other.pawns {
        least = least.min(pawn_away(other.side, pawn, beside));
    }
    least
}

/// How far a mate in a corner is for minor pieces, where the winner has no others. Where one of them or bishops of one colour are
/// alone, a man of the loser has to stand beside the corner.
fn corner_of_minor(own: &Army, other: &Army, corner: Square) -> u32 {
    let men = kings_away(own, other, corner) + knights_away(own.knights, corner);
    if own.is_lone() {
        men + least_blocker(own, other, corner)
    } else {
        men
    }
}

/// How far the loser's king is from a mate in some corner.
fn least_corner(own: &Army, other: &Army) -> u32 {
    if !own.is_minor() {
        return kings_from_corners(own, other);
    }
    let mut least = FARTHEST;
    for corner in corners(own) {
        least = least.min(corner_of_minor(own, other, corner));
    }
    least
}

/// How far a position is from a mate, by how far it is from one in a corner, how many squares the loser's king has, and how many men
/// the loser has beside it.
pub fn balance_guide(position: &Position, winner: Color) -> u8
    ensures { result < 64 }
{
    let own = Army::of(position, winner);
    let other = Army::of(position, winner.other());
    if own.is_minor() && is_hopeless(&own, &other) {
        return HOPELESS;
    }
    let men = LOSERS_MAN * u32::from(other.others().len());
    let squares = u32::from(flights(position, winner).len());
    let corner = FARTHEST.min(least_corner(&own, &other));
    FARTHEST.min(corner + squares + men) as u8
}
