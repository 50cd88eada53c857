//! Which origins become loose by the man of an origin.

ghost use Rattle.std.specs.Prelude.{◌≡◌};
ghost use Rattle.cha_board.specs.SquareSets.{set_of};
ghost use Rattle.mob_check.specs.Rules.{is_struck, is_passed, is_left, is_freed};

use crate::goes::{barred, entered};
use crate::ground::Ground;
use crate::single_steps::spread;
use cha_board::{Color, Kind, Square, SquareSet};

/// The origins that become loose where the man of an origin may be on the squares of a row as a kind.
pub fn freed(ground: &Ground, origin: Square, side: Color, kind: Kind, row: SquareSet) -> SquareSet
    ensures { result ≡ set_of (is_freed ground.now origin side kind row) }
{
    struck(ground, side, kind, row)
        .joined(passed(ground, side, kind, row))
        .joined(left(ground, origin, side, kind, row))
}

/// The squares of the fixed men of the other side that it may capture.
fn struck(ground: &Ground, side: Color, kind: Kind, row: SquareSet) -> SquareSet
    ensures { result ≡ set_of (is_struck ground.now side kind row) }
{
    let prey = ground.fixed.common(ground.side(side.other()).men);
    let free = prey.minus(barred(ground, side, kind));
    free.common(spread(side, kind, row))
}

/// The square of the pawn that it may capture en passant at once, if there is one: the square behind the target.
fn passed(ground: &Ground, side: Color, kind: Kind, row: SquareSet) -> SquareSet
    ensures { result ≡ set_of (is_passed ground.now side kind row) }
{
    if kind.is(Kind::Pawn) {
        let onto = ground.side(side).target.common(spread(side, kind, row));
        onto.ahead(side.other())
    } else {
        SquareSet::empty()
    }
}

/// Its origin, if it may go from there.
fn left(ground: &Ground, origin: Square, side: Color, kind: Kind, row: SquareSet) -> SquareSet
    ensures { result ≡ set_of (is_left ground.now origin side kind row) }
{
    let single = SquareSet::single(origin);
    if entered(ground, side, kind, row.common(single)).is_empty() {
        SquareSet::empty()
    } else {
        single
    }
}
