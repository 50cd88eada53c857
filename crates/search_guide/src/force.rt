//! What the winner mates with.

ghost use Rattle.std.specs.Prelude.{◌≤◌};

use crate::army::Army;
use crate::king_walks::reaches;
use crate::pawns::{LONGEST_WAY, least_way};
use cha_board::SquareSet;

/// What it counts that there are rooks and no queen.
const NO_QUEEN: u32 = 8;

/// What it counts that there are minor pieces alone.
const MINOR_MEN_ALONE: u32 = 16;

/// Whether some queens or rooks of the winner count: any, but where it has a pawn, only those that the loser's king can reach over
/// squares without a pawn.
fn count_there(own: &Army, other: &Army, heavy: SquareSet) -> bool {
    if own.pawns.is_empty() || heavy.is_empty() {
        return !heavy.is_empty();
    }
    let everywhere = SquareSet::from_bits(u64::MAX);
    reaches(
        other.king,
        everywhere.minus(own.pawns).minus(other.pawns),
        heavy,
    )
}

/// What the want of force counts: nothing with a queen, something with a rook, the way of a pawn with pawns, and more with
/// minor pieces alone.
pub fn want_of_force(own: &Army, other: &Army, occupied: SquareSet) -> u32
    ensures { result ≤ LONGEST_WAY }
{
    if count_there(own, other, own.queens) {
        0
    } else if count_there(own, other, own.rooks) {
        NO_QUEEN
    } else if own.pawns.is_empty() {
        MINOR_MEN_ALONE
    } else {
        least_way(own, other, occupied)
    }
}
