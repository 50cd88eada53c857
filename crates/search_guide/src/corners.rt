//! How far a corner is from a mate of the loser's king in it.

ghost use Rattle.std.specs.Prelude.{◌+◌, ◌<◌, ◌≤◌};

use crate::army::{Army, color_of};
use crate::king_walks::steps_to_nearest;
use crate::kings::{kings_away, kings_from_corners};
use crate::pawns::ranks_to_promotion;
use cha_board::{Color, Kind, Square, SquareSet, aims_alone, steps_between};

/// How many king's steps from the corner the winner's knights stand well.
const WELL_PLACED: u8 = 2;

/// What it counts that no man of the loser can stand beside the corner.
pub const NO_BLOCKER: u32 = 24;

/// What a pawn counts that has to be promoted first, beside its ranks to promotion.
const TO_PROMOTE: u32 = 2;

/// The greatest number of this guide.
pub const FARTHEST: u32 = 62;

/// The number of the last file and of the last rank.
const LAST: u8 = 7;

/// The corners in which the winner may mate: all four, but where it has bishops of one colour alone, those of their colour.
pub fn corners(own: &Army) -> SquareSet {
    let all = SquareSet::from_bits(0x8100_0000_0000_0081);
    match own.bishops_color() {
        None => all,
        Some(color) => all.common(color),
    }
}

/// How far the winner's knights are from where they stand well, all together.
pub fn knights_away(knights: SquareSet, corner: Square) -> u32
    ensures { result ≤ FARTHEST }
{
    let mut away = 0;
    for knight in knights {
        let steps = steps_between(knight, corner).saturating_sub(WELL_PLACED);
        away = FARTHEST.min(away + u32::from(steps));
    }
    away
}

/// The two squares beside a corner along its rank and its file. Both have the colour that the corner has not, so the men that come to
/// one come to the other.
pub fn beside(corner: Square) -> SquareSet {
    let steps = aims_alone(Color::White, Kind::King, corner);
    steps.common(aims_alone(Color::White, Kind::Rook, corner))
}

/// The loser's men that can come to the squares beside a corner as they are, where the winner has a lone minor piece. Against bishops
/// a rook would end the check.
pub fn blockers(own: &Army, other: &Army, corner: Square) -> SquareSet {
    let color = SquareSet::from_bits(u64::MAX).minus(color_of(corner));
    let men = other.knights.joined(other.bishops.common(color));
    if own.bishops.is_empty() {
        men.joined(other.rooks)
    } else {
        men
    }
}

/// How far the loser's pawns are from blocking one of some squares: nothing where one stands there, and else the way to promotion.
fn pawn_away(other: &Army, to: SquareSet) -> u32
    ensures { result ≤ NO_BLOCKER }
{
    if !other.pawns.common(to).is_empty() {
        return 0;
    }
    match ranks_to_promotion(other.side, other.pawns) {
        None => NO_BLOCKER,
        Some(ranks) => TO_PROMOTE + u32::from(ranks),
    }
}

/// How far the loser's men are from blocking one of the two squares beside a corner.
fn least_blocker(own: &Army, other: &Army, corner: Square) -> u32
    ensures { result ≤ NO_BLOCKER }
{
    let beside = beside(corner);
    let by_pawn = pawn_away(other, beside);
    match steps_to_nearest(beside, blockers(own, other, corner)) {
        None => by_pawn,
        Some(steps) => by_pawn.min(u32::from(steps)),
    }
}

/// How far a mate in a corner is for minor pieces, where the winner has no others, or `least` where it is no nearer. Where one of
/// them or bishops of one colour are alone, a man of the loser has to stand beside the corner.
// What counts most is asked for last, and only where what is known already is less.
fn corner_of_minor(own: &Army, other: &Army, corner: Square, least: u32) -> u32
    requires { least ≤ FARTHEST }
    ensures { result ≤ FARTHEST }
{
    let kings = kings_away(own, other, corner);
    if kings >= least {
        return least;
    }
    let men = kings + knights_away(own.knights, corner);
    if men >= least || !own.is_lone() {
        return least.min(men);
    }
    least.min(men + least_blocker(own, other, corner))
}

/// The corner that is nearest to a square.
fn nearest_corner(at: Square) -> Square {
    let file = if at.file() < 4 { 0 } else { LAST };
    let rank = if at.rank() < 4 { 0 } else { LAST };
    Square::on(file, rank)
}

/// How far a mate in some of these corners is for minor pieces, where the winner has no others, at most `most`.
fn least_of_corners(own: &Army, other: &Army, corners: SquareSet, most: u32) -> u32
    requires { most ≤ FARTHEST }
    ensures { result ≤ FARTHEST }
{
    let mut least = most;
    for corner in corners {
        least = corner_of_minor(own, other, corner, least);
    }
    least
}

/// How far the loser's king is from a mate in some corner by minor pieces, where the winner has no others, at most `most`.
// The nearest corner comes first: the others are seldom less.
fn least_corner_of_minor(own: &Army, other: &Army, most: u32) -> u32
    requires { most ≤ FARTHEST }
    ensures { result ≤ FARTHEST }
{
    let all = corners(own);
    let nearest = SquareSet::single(nearest_corner(other.king));
    let least = least_of_corners(own, other, all.common(nearest), most);
    least_of_corners(own, other, all.minus(nearest), least)
}

/// How far the loser's king is from a mate in some corner, at most `most`.
pub fn least_corner(own: &Army, other: &Army, most: u32) -> u32
    requires { most ≤ FARTHEST }
    ensures { result ≤ FARTHEST }
{
    if own.is_minor() {
        least_corner_of_minor(own, other, most)
    } else {
        most.min(kings_from_corners(own, other))
    }
}
