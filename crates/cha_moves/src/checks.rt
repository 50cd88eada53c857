//! Where a man of the side to move may give check.

ghost use Rattle.std.specs.Prelude.{◌≡◌};
ghost use Rattle.cha_board.specs.SquareSets.{set_of};
ghost use Rattle.cha_moves.specs.Checks.{HaveScreens, may_check, is_special_check};

use crate::shields::{aimers, lone};
use crate::sides::promotion_rank;
use cha_board::{Kind, Position, Square, SquareSet, Wing, aims, squares_between};

/// The squares of the men that alone stand between a square and a man of the side to move that aims at it over them. Where one of
/// them goes, that man may attack the square.
pub fn lines_to(position: &Position, king: Square) -> SquareSet
    ensures { HaveScreens position.now king result }
{
    let occupied = position.occupied();
    let mut lines = SquareSet::empty();
    for by in aimers(position, position.side(), king) {
        let way = squares_between(by, king).common(occupied);
        lines = lines.joined(lone(way));
    }
    lines
}

/// The squares on which a man may give check otherwise than by aiming at the king as it is: a pawn may become another man or
/// capture in passing, and a king may castle.
fn special_checks(position: &Position, kind: Kind) -> SquareSet
    ensures { result ≡ set_of (is_special_check position.now kind) }
{
    let side = position.side();
    match kind {
        Kind::Pawn => {
            let last = SquareSet::of_rank(promotion_rank(side));
            match position.target() {
                None => last,
                Some(target) => last.with(target),
            }
        }
        Kind::King => {
            SquareSet::single(Wing::Queenside.goal(side)).with(Wing::Kingside.goal(side))
        }
        _ => SquareSet::empty(),
    }
}

/// The squares on which a man of the side to move and of a kind may give check once it arrives there from its square.
pub fn checks_by(position: &Position, kind: Kind, from: Square) -> SquareSet
    ensures { result ≡ set_of (may_check position.now from kind) }
{
    let enemy = position.side().other();
    let others = position.occupied().without(from);
    let near = aims(enemy, kind, position.king(enemy), others);
    near.joined(special_checks(position, kind))
}
