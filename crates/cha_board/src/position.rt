//! Valid positions.

ghost use Rattle.std.specs.Prelude.{◌≡◌, not};
ghost use Rattle.cha_board.specs.Men.{is_man, is_non_king};
ghost use Rattle.cha_board.specs.Board.{man_at, is_empty, attacked, king_of, IsValid};
ghost use Rattle.cha_board.specs.Board.{in_check as in_check_among};
ghost use Rattle.cha_board.specs.SquareSets.{set_of};

use crate::men::{Color, Kind, Man};
use crate::placement::Men;
use crate::sets::SquareSet;
use crate::squares::Square;
use std::marker::Model;

/// The castlings that are left, as far as kings and rooks have not moved (Laws of Chess, Article 3.8.2.1).
#[derive(Clone, Copy, Debug, PartialEq, Eq, PartialOrd, Ord, Hash)]
pub struct Rights {
    /// White may castle on the king's side.
    pub white_king: bool,
    /// White may castle on the queen's side.
    pub white_queen: bool,
    /// Black may castle on the king's side.
    pub black_king: bool,
    /// Black may castle on the queen's side.
    pub black_queen: bool,
}

/// A valid position, seen by contracts as its parts: what stands on each of the 64 squares, the side to move, the rights
/// to castle and the square that a pawn has just passed over in a double step.
///
/// Each side has one king, no pawn stands on the first or the last rank, the side that is not to move is not in check, and
/// the rights and the target fit the men.
#[derive(Clone, Copy, Debug, PartialEq, Eq)]
pub struct Position {
    men: Men,
    // Side and target lie side by side: what most moves say of both is then one word.
    rights: Rights,
    side: Color,
    target: Option<Square>,
}

impl Model for Position {
    ghost use Rattle.cha_board.specs.Board.{Board, IsValid};

    ghost Value = { Board };

    ghost view = { λ q. record { men = q.men; side = q.side; rights = q.rights; target = q.target } };

    ghost invariant = { λ q. IsValid (record { men = q.men; side = q.side; rights = q.rights; target = q.target }) };

    ghost inverse = { λ q. record { men = q.men; side = q.side; rights = q.rights; target = q.target } };
}

impl Position {
    /// The position of parts that are valid together.
    pub fn of_parts(men: Men, side: Color, rights: Rights, target: Option<Square>) -> Position
        requires { IsValid (record { men = men; side = side; rights = rights; target = target }) }
        ensures { result ≡ record { men = men; side = side; rights = rights; target = target } }
    {
        Position {
            men,
            side,
            rights,
            target,
        }
    }

    /// What stands on a square.
    pub fn man(&self, at: Square) -> Option<Man>
        ensures { result ≡ man_at self.now.men at }
    {
        self.men.man(at)
    }

    /// What stands on the squares.
    pub fn placement(&self) -> &Men
        ensures value { result.now ≡ self.now.men }
        ensures valid { IsValid self.now }
    {
        &self.men
    }

    /// Proves to the caller that the position is valid.
    pub fn known(&self)
        ensures { IsValid self.now }
    {
        let _men = &self.men;
    }

    /// The squares on which men of this side and this kind stand.
    pub fn men(&self, of: Color, kind: Kind) -> SquareSet
        ensures { result ≡ set_of (λ s. is_man of kind (man_at self.now.men s)) }
    {
        self.men.of_kind(of, kind)
    }

    /// The squares on which men of this side other than its king stand.
    pub fn non_kings(&self, of: Color) -> SquareSet
        ensures { result ≡ set_of (λ s. is_non_king of (man_at self.now.men s)) }
    {
        self.men.non_kings(of)
    }

    /// The squares on which a man stands.
    pub fn occupied(&self) -> SquareSet
        ensures { result ≡ set_of (λ s. not (is_empty self.now.men s)) }
    {
        self.men.occupied()
    }

    /// The side to move.
    pub fn side(&self) -> Color
        ensures { result ≡ self.now.side }
    {
        self.side
    }

    /// The castlings that are left.
    pub fn rights(&self) -> Rights
        ensures { result ≡ self.now.rights }
    {
        self.rights
    }

    /// The square that a pawn has just passed over in a double step.
    pub fn target(&self) -> Option<Square>
        ensures { result ≡ self.now.target }
    {
        self.target
    }

    /// Where the king of a side stands.
    pub fn king(&self, of: Color) -> Square
        ensures { result ≡ king_of self.now.men of }
    {
        self.men.king(of)
    }

    /// Whether the king of a side is attacked.
    pub fn in_check(&self, of: Color) -> bool
        ensures { result ≡ in_check_among self.now.men of }
    {
        self.men.in_check(of)
    }
}

/// Whether a side attacks a square of a position.
pub fn attacks(position: &Position, by: Color, at: Square) -> bool
    ensures { result ≡ attacked position.now.men by at }
{
    position.men.attacks(by, at)
}
