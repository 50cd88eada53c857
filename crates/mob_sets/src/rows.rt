//! The row of an origin and a kind.

ghost use Rattle.std.specs.Prelude.{◌≡◌, ◌<◌};
ghost use Rattle.cha_board.specs.SquareSets.{has_square};
ghost use Rattle.mob_sets.specs.Rows.{kind_number, place_of, row_place, row_joined};

use cha_board::{Kind, Square, SquareSet};
use std::marker::Model;

/// The squares on which the man of an origin may ever stand as a kind. The origin is the square on which it stands in
/// the position that the sets are for.
#[derive(Clone, Copy, Debug, PartialEq, Eq)]
pub struct SetRow {
    pub origin: Square,
    pub kind: Kind,
    pub squares: SquareSet,
}

impl Model for SetRow {
    ghost use Rattle.mob_sets.specs.Rows.{Row};

    ghost Value = { Row };

    ghost view = { λ r. record { origin = r.origin; kind = r.kind; squares = r.squares } };

    ghost inverse = { λ r. record { origin = r.origin; kind = r.kind; squares = r.squares } };
}

impl SetRow {
    /// The place of the row among the others, from 0 to 383.
    pub fn place(self) -> usize
        ensures { result ≡ row_place self }
    {
        place(self.origin, self.kind)
    }

    /// Whether a square is in the row.
    pub fn has(self, at: Square) -> bool
        ensures { result ≡ has_square self.squares at }
    {
        self.squares.has(at)
    }

    /// The row with more squares.
    pub fn joined(self, more: SquareSet) -> SetRow
        ensures { result ≡ row_joined self more }
    {
        SetRow {
            origin: self.origin,
            kind: self.kind,
            squares: more.joined(self.squares),
        }
    }
}

/// The place of the row of an origin and a kind among the others, from 0 to 383.
pub fn place(origin: Square, kind: Kind) -> usize
    ensures value { result ≡ place_of origin kind }
    ensures bound { result < 384 }
{
    usize::from(origin.index()) * 6 + number(kind)
}

/// The number of a kind in the order of rows.
fn number(kind: Kind) -> usize
    ensures value { result ≡ kind_number kind }
    ensures bound { result < 6 }
{
    match kind {
        Kind::Pawn => 0,
        Kind::Knight => 1,
        Kind::Bishop => 2,
        Kind::Rook => 3,
        Kind::Queen => 4,
        Kind::King => 5,
    }
}
