//! Ranks on which men do not stay of their kind.

ghost use Rattle.std.specs.Prelude.{◌≡◌, ◌<◌, ◌&&◌, not, ℕ};
ghost use Rattle.cha_board.specs.SquareSets.{set_of, has_square};
ghost use Rattle.mob_check.specs.SingleSteps.{stays};

use cha_board::{Color, Kind, SquareSet};
use cha_moves::promotion_rank;

/// The squares on which a man that enters them does not stay of its kind: for a pawn those of the last rank.
fn changing(side: Color, kind: Kind) -> SquareSet
    ensures { (t : ℕ) → t < 64 → has_square result t ≡ not (stays side kind t) }
{
    if kind.is(Kind::Pawn) {
        SquareSet::of_rank(promotion_rank(side))
    } else {
        SquareSet::empty()
    }
}

/// The squares of a set on which a man that enters them stays of its kind.
pub fn staying(side: Color, kind: Kind, set: SquareSet) -> SquareSet
    ensures { result ≡ set_of (λ t. has_square set t && stays side kind t) }
{
    set.minus(changing(side, kind))
}

/// The squares of a set on which a man that enters them changes its kind: for a pawn those of the last rank.
pub fn ending(side: Color, kind: Kind, set: SquareSet) -> SquareSet
    ensures { result ≡ set_of (λ t. has_square set t && not (stays side kind t)) }
{
    set.common(changing(side, kind))
}
