//! Squares filled by all to which a man goes from them.

ghost use Rattle.mob_solve.specs.Filled.{IsFilled};

use cha_board::{Color, Kind, SquareSet};
use mob_check::{Ground, comes};

/// The squares that a man may come to from some squares as long as it stays of its kind.
pub fn filled(ground: &Ground, side: Color, kind: Kind, from: SquareSet) -> SquareSet
    ensures { IsFilled ground.now side kind from result }
{
    let mut squares = from;
    loop {
        let next = comes(ground, side, kind, squares);
        if next.within(squares) {
            return squares;
        }
        squares = squares.joined(next);
    }
}
