//! The squares of a set, one after the other.

ghost use Rattle.std.specs.Prelude.{◌≡◌, length};
ghost use Rattle.std.specs.Iterator.{at_most};
ghost use Rattle.cha_board.specs.SquareSets.{squares_in, TakesFirst};

use crate::sets::SquareSet;
use crate::squares::Square;
use std::marker::Model;

/// The squares of a set from a1 to h8, seen by contracts as the set of those that are still to come.
#[derive(Drop)]
pub struct Squares {
    left: SquareSet,
}

impl Model for Squares {
    ghost use Rattle.std.specs.Prelude.{Bool, List};

    ghost Value = { List Bool };

    ghost view = { λ s. s.left };
}

impl Iterator for Squares {
    type Item = Square;

    ghost next_gives = { TakesFirst };

    ghost remaining = { λ s. at_most (length (squares_in s)) };

    #[inline(always)]
    fn next(&mut self) -> Option<Square> {
        let first = self.left.first()?;
        self.left = self.left.without(first);
        Some(first)
    }
}

impl IntoIterator for SquareSet {
    type Item = Square;

    type IntoIter = Squares;

    ghost into_iter_gives = { λ s r. r ≡ s };

    #[inline(always)]
    fn into_iter(self) -> Squares {
        Squares { left: self }
    }
}
