//! The ways of pawns to the last rank.

ghost use Rattle.std.specs.Prelude.{◌<◌, ◌≤◌, IfSome};

use crate::army::{Army, color_of};
use crate::king_walks::steps_to_nearest;
use cha_board::{Color, Square, SquareSet, squares_between};
use cha_moves::promotion_rank;

/// What each rank to the last one counts.
const RANK: u32 = 2;

/// What each man in front of the pawn counts.
const MAN_IN_FRONT: u32 = 4;

/// What each king's step to the first pawn of the loser in front counts.
const STEP_TO_PAWN: u32 = 4;

/// The most that the way of a pawn counts, and what counts where there is no pawn.
pub const LONGEST_WAY: u32 = 40;

/// How many ranks the most advanced pawn of a set is from the last rank of its side. `None` where there is none.
pub fn ranks_to_promotion(side: Color, pawns: SquareSet) -> Option<u8>
    ensures { IfSome result (λ ranks. ranks < 8) }
{
    if pawns.is_empty() {
        return None;
    }
    // The bit of the corner changes nothing: it only tells that there is a bit.
    let squares = match side {
        Color::White => (pawns.bits() | 1).leading_zeros(),
        Color::Black => (pawns.bits() | 1 << 63).trailing_zeros(),
    };
    Some((squares / 8).min(7) as u8)
}

/// The squares in front of a pawn on its file.
fn in_front(side: Color, pawn: Square) -> SquareSet {
    let end = Square::on(pawn.file(), promotion_rank(side));
    squares_between(pawn, end).with(end)
}

/// The first square of a set in front of a pawn.
fn first_in_front(side: Color, pawn: Square, set: SquareSet) -> Option<Square> {
    let mut at = SquareSet::single(pawn);
    for _ in 0..7 {
        at = at.ahead(side);
        let met = at.common(set);
        if !met.is_empty() {
            return met.first();
        }
    }
    None
}

/// The men of a side other than a pawn, of which bishops count only where they can come to a square.
fn helpers(own: &Army, pawn: Square, to: Square) -> SquareSet {
    let bishops = own.bishops.common(color_of(to));
    own.heavy()
        .joined(own.knights)
        .joined(bishops)
        .joined(own.pawns)
        .with(own.king)
        .without(pawn)
}

/// What it counts that a pawn of the loser stands in front of a pawn: how far the nearest helper is from it.
// Few pawns are asked, and the others are not to make room for it.
#[inline(never)]
fn blocked(own: &Army, other: &Army, pawn: Square) -> u32
    ensures { result ≤ 28 }
{
    let Some(blocker) = first_in_front(own.side, pawn, other.pawns) else {
        return 0;
    };
    match steps_to_nearest(SquareSet::single(blocker), helpers(own, pawn, blocker)) {
        None => 0,
        Some(steps) => STEP_TO_PAWN * u32::from(steps),
    }
}

/// What the way of a pawn to the last rank counts, or `least` where it is no less.
// What counts most is asked for last, and only where what is known already is less. No helper stands where the first pawn in
// front does, so it is a step away at least.
fn way(own: &Army, other: &Army, occupied: SquareSet, pawn: Square, least: u32) -> u32
    requires { least ≤ LONGEST_WAY }
    ensures { result ≤ LONGEST_WAY }
{
    let ranks = u32::from(pawn.rank().abs_diff(promotion_rank(own.side)));
    if RANK * ranks >= least {
        return least;
    }
    let squares = in_front(own.side, pawn);
    let men = u32::from(squares.common(occupied).len());
    let open = RANK * ranks + MAN_IN_FRONT * men;
    if squares.common(other.pawns).is_empty() {
        return least.min(open);
    }
    if open + STEP_TO_PAWN >= least {
        return least;
    }
    least.min(open + blocked(own, other, pawn))
}

/// What the way of a side's pawns to promotion counts: the least over its pawns, at most `LONGEST_WAY`.
pub fn least_way(own: &Army, other: &Army, occupied: SquareSet) -> u32
    ensures { result ≤ LONGEST_WAY }
{
    let mut least = LONGEST_WAY;
    for pawn in own.pawns {
        least = way(own, other, occupied, pawn, least);
    }
    least
}
