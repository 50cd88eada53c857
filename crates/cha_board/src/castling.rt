//! What a side needs for castling: its two wings, the homes of its king and its rooks, the squares that its king crosses and
//! where it arrives, and the rights that it has left (Laws of Chess, Article 3.8.2).

ghost use Rattle.std.specs.Prelude.{◌≡◌, ◌≤◌};
ghost use Rattle.cha_board.specs.Board.{home_of, corner_of, crossing_of, goal_of, is_home, has_right};
ghost use Rattle.cha_board.specs.SquareSets.{set_of};
ghost use Rattle.cha_board.specs.Squares.{lies_between};

use crate::men::Color;
use crate::position::Rights;
use crate::sets::SquareSet;
use crate::squares::Square;

/// The half of the board on which a king castles.
#[derive(Clone, Copy, Debug, PartialEq, Eq, PartialOrd, Ord, Hash)]
pub enum Wing {
    /// The files from e to h.
    Kingside,
    /// The files from a to d.
    Queenside,
}

impl Wing {
    /// The home of the rook with which a side castles: h1 or h8 on the king's side, a1 or a8 on the queen's.
    pub fn corner(self, side: Color) -> Square
        ensures { result ≡ corner_of side self }
    {
        match self {
            Wing::Kingside => Square::at(home(side).index() + 3),
            Wing::Queenside => Square::at(home(side).index() - 4),
        }
    }

    /// The square that the king of a side crosses to castle, where its rook arrives: f1 or f8, d1 or d8.
    pub fn crossing(self, side: Color) -> Square
        ensures { result ≡ crossing_of side self }
    {
        match self {
            Wing::Kingside => Square::at(home(side).index() + 1),
            Wing::Queenside => Square::at(home(side).index() - 1),
        }
    }

    /// The squares between the home of a side's king and that of its rook: from f to g, or from b to d.
    #[tactic(auto, using(crate::proofs::Shifted::ways_shown))]
    pub fn way(self, side: Color) -> SquareSet
        ensures { result ≡ set_of (lies_between (home_of side) (corner_of side self)) }
    {
        match side {
            Color::White => match self {
                Wing::Kingside => SquareSet::from_bits(0x60),
                Wing::Queenside => SquareSet::from_bits(0x0e),
            },
            Color::Black => match self {
                Wing::Kingside => SquareSet::from_bits(0x6000_0000_0000_0000),
                Wing::Queenside => SquareSet::from_bits(0x0e00_0000_0000_0000),
            },
        }
    }

    /// Where the king of a side arrives when it castles: g1 or g8, c1 or c8.
    pub fn goal(self, side: Color) -> Square
        ensures { result ≡ goal_of side self }
    {
        match self {
            Wing::Kingside => Square::at(home(side).index() + 2),
            Wing::Queenside => Square::at(home(side).index() - 2),
        }
    }
}

impl Rights {
    /// Whether a side may still castle on a wing, as far as king and rook have not moved.
    pub fn has(self, side: Color, wing: Wing) -> bool
        ensures { result ≡ has_right self side wing }
    {
        match side {
            Color::White => match wing {
                Wing::Kingside => self.white_king,
                Wing::Queenside => self.white_queen,
            },
            Color::Black => match wing {
                Wing::Kingside => self.black_king,
                Wing::Queenside => self.black_queen,
            },
        }
    }
}

/// The home of the king of a side: e1 or e8.
pub fn home(side: Color) -> Square
    ensures value { result ≡ home_of side }
    ensures low { 4 ≤ result }
    ensures high { result ≤ 60 }
{
    match side {
        Color::White => Square::at(4),
        Color::Black => Square::at(60),
    }
}

/// The homes of both sides' kings and rooks: a1, e1, h1, a8, e8 and h8.
#[tactic(auto, using(crate::proofs::Shifted::homes_shown))]
pub fn homes() -> SquareSet
    ensures { result ≡ set_of is_home }
{
    SquareSet::from_bits(0x9100_0000_0000_0091)
}
