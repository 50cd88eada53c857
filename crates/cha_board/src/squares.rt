//! The squares of the board (Laws of Chess, Article 2.4).

ghost use Rattle.std.specs.Prelude.{◌≡◌, ◌≢◌, ◌+◌, ◌*◌, ◌<◌, ◌↔◌, IsSome, IfSome};
ghost use Rattle.cha_board.specs.Squares.{file_of, rank_of, last_rank, ahead_of};

use crate::men::Color;
use std::marker::Model;

/// A square, seen by contracts as its number: from 0 for a1 and 1 for b1 to 63 for h8, its file plus eight times its rank.
#[derive(Clone, Copy, Debug, PartialEq, Eq, PartialOrd, Ord, Hash)]
pub struct Square {
    index: u8,
}

impl Model for Square {
    ghost use Rattle.std.specs.Prelude.{ℕ, ◌<◌};

    ghost Value = { ℕ };

    ghost view = { λ s. s.index };

    ghost invariant = { λ s. s.index < 64 };

    ghost inverse = { λ n. record { index = n } };
}

/// The square a1.
impl Default for Square {
    fn default() -> Square {
        Square { index: 0 }
    }
}

impl Square {
    /// The square of a number, or None where the number is 64 or more.
    pub fn new(index: u8) -> Option<Square>
        ensures some { IsSome result ↔ (index < 64) }
        ensures value { IfSome result (λ square. square ≡ index) }
    {
        if index < 64 {
            Some(Square { index })
        } else {
            None
        }
    }

    /// The square of a number from 0 to 63.
    pub fn at(index: u8) -> Square
        requires { index < 64 }
        ensures { result ≡ index }
    {
        Square { index }
    }

    /// The square of a file and a rank, each from 0 to 7.
    pub fn on(file: u8, rank: u8) -> Square
        requires file { file < 8 }
        requires rank { rank < 8 }
        ensures { result ≡ file + 8 * rank }
    {
        Square {
            index: file + 8 * rank,
        }
    }

    /// The number of the square, from 0 to 63.
    pub fn index(self) -> u8
        ensures value { result ≡ self }
        ensures bound { result < 64 }
    {
        self.index
    }

    /// The file, from 0 for the a-file to 7 for the h-file.
    pub fn file(self) -> u8
        ensures value { result ≡ file_of self }
        ensures bound { result < 8 }
    {
        self.index % 8
    }

    /// The rank, from 0 for the first rank to 7 for the eighth.
    pub fn rank(self) -> u8
        ensures value { result ≡ rank_of self }
        ensures bound { result < 8 }
    {
        self.index / 8
    }

    /// The square one rank ahead, as a side sees it. There is none ahead of its last rank.
    pub fn ahead(self, side: Color) -> Square
        requires { rank_of self ≢ last_rank side }
        ensures { result ≡ ahead_of side self }
    {
        match side {
            Color::White => Square::at(self.index + 8),
            Color::Black => Square::at(self.index - 8),
        }
    }
}
