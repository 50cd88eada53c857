//! A move of a man.

ghost use Rattle.std.specs.Prelude.{◌<◌};

use cha_board::{Kind, Square};
use std::marker::Model;

/// A move: where a man goes from and to, and what a pawn becomes on the last rank. Castling is the king's move of two
/// files.
#[derive(Clone, Copy, Debug, Default, PartialEq, Eq, PartialOrd, Ord, Hash)]
pub struct Move {
    pub from: Square,
    pub to: Square,
    pub promotion: Option<Kind>,
}

impl Model for Move {
    ghost use Rattle.cha_moves.specs.Step.{Move as Step};

    ghost Value = { Step };

    ghost view = { λ m. record { from = m.from; to = m.to; promotion = m.promotion } };

    ghost inverse = { λ m. record { from = m.from; to = m.to; promotion = m.promotion } };
}

impl Move {
    /// The move itself, of which both squares are known to be on the board.
    pub fn known(self)
        ensures from { self.from < 64 }
        ensures to { self.to < 64 }
    {
        let _from = self.from.index();
        let _to = self.to.index();
    }
}
