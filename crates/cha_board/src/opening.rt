//! The opening position (Laws of Chess, Article 2.3).

ghost use Rattle.std.specs.Prelude.{◌≡◌, true, None, map, codes};
ghost use Rattle.cha_board.specs.declared.men.Color.TheVariants.{White};
ghost use Rattle.cha_board.specs.declared.opening.TheConstants.{OPENING_MEN};
ghost use Rattle.cha_board.specs.Letters.{letter_or_dot};

use crate::men::{Color, Kind, Man};
use crate::placement::Men;
use crate::position::{Position, Rights};

const WHITE_PAWN: Option<Man> = Some(Man {
    color: Color::White,
    kind: Kind::Pawn,
});

const WHITE_KNIGHT: Option<Man> = Some(Man {
    color: Color::White,
    kind: Kind::Knight,
});

const WHITE_BISHOP: Option<Man> = Some(Man {
    color: Color::White,
    kind: Kind::Bishop,
});

const WHITE_ROOK: Option<Man> = Some(Man {
    color: Color::White,
    kind: Kind::Rook,
});

const WHITE_QUEEN: Option<Man> = Some(Man {
    color: Color::White,
    kind: Kind::Queen,
});

const WHITE_KING: Option<Man> = Some(Man {
    color: Color::White,
    kind: Kind::King,
});

const BLACK_PAWN: Option<Man> = Some(Man {
    color: Color::Black,
    kind: Kind::Pawn,
});

const BLACK_KNIGHT: Option<Man> = Some(Man {
    color: Color::Black,
    kind: Kind::Knight,
});

const BLACK_BISHOP: Option<Man> = Some(Man {
    color: Color::Black,
    kind: Kind::Bishop,
});

const BLACK_ROOK: Option<Man> = Some(Man {
    color: Color::Black,
    kind: Kind::Rook,
});

const BLACK_QUEEN: Option<Man> = Some(Man {
    color: Color::Black,
    kind: Kind::Queen,
});

const BLACK_KING: Option<Man> = Some(Man {
    color: Color::Black,
    kind: Kind::King,
});

/// What stands on each square in the opening position, from a1 to h8.
#[rattlefmt::skip]
pub const OPENING_MEN: [Option<Man>; 64] = [
    WHITE_ROOK, WHITE_KNIGHT, WHITE_BISHOP, WHITE_QUEEN, WHITE_KING, WHITE_BISHOP, WHITE_KNIGHT, WHITE_ROOK,
    WHITE_PAWN, WHITE_PAWN, WHITE_PAWN, WHITE_PAWN, WHITE_PAWN, WHITE_PAWN, WHITE_PAWN, WHITE_PAWN,
    None, None, None, None, None, None, None, None,
    None, None, None, None, None, None, None, None,
    None, None, None, None, None, None, None, None,
    None, None, None, None, None, None, None, None,
    BLACK_PAWN, BLACK_PAWN, BLACK_PAWN, BLACK_PAWN, BLACK_PAWN, BLACK_PAWN, BLACK_PAWN, BLACK_PAWN,
    BLACK_ROOK, BLACK_KNIGHT, BLACK_BISHOP, BLACK_QUEEN, BLACK_KING, BLACK_BISHOP, BLACK_KNIGHT, BLACK_ROOK,
];

impl Position {
    /// The opening position: White to move, with all castlings left. Its men are told by letters too, from a1 to h8.
    pub fn start() -> Position
        ensures letters { map letter_or_dot result.men ≡ codes "RNBQKBNRPPPPPPPP................................pppppppprnbqkbnr" }
        ensures men { result.men ≡ OPENING_MEN }
        ensures side { result.side ≡ White }
        ensures rights { result.rights ≡ record { white_king = true; white_queen = true; black_king = true; black_queen = true } }
        ensures target { result.target ≡ None }
    {
        Position::of_parts(
            opening_men(),
            Color::White,
            Rights {
                white_king: true,
                white_queen: true,
                black_king: true,
                black_queen: true,
            },
            None,
        )
    }
}

/// What stands on the squares in the opening position.
fn opening_men() -> Men
    ensures { result ≡ OPENING_MEN }
{
    Men::of_list(&OPENING_MEN)
}
