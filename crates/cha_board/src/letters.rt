//! Letters of men, and texts of squares (PGN standard, 8.2.3 and 16.1.3).

ghost use Rattle.std.specs.Prelude.{◌≡◌, ◌+◌, ◌++◌, OnOk};
ghost use Rattle.cha_board.specs.Squares.{file_of, rank_of};
ghost use Rattle.cha_board.specs.Letters.{kind_letter, kind_of, letter_of, man_of, square_text, square_of};

use crate::men::{Color, Kind, Man};
use crate::squares::Square;
use cha_list::{NoMemory, Text};

impl Kind {
    /// The capital letter of a kind: P, N, B, R, Q or K (PGN standard, 8.2.3.2; a pawn's: 16.1.3.1).
    pub fn letter(self) -> u8
        ensures { result ≡ kind_letter self }
    {
        match self {
            Kind::Pawn => b'P',
            Kind::Knight => b'N',
            Kind::Bishop => b'B',
            Kind::Rook => b'R',
            Kind::Queen => b'Q',
            Kind::King => b'K',
        }
    }

    /// The kind of a capital letter, or None where the byte is none of P, N, B, R, Q and K.
    #[tactic(auto, unfolding(crate::specs::Letters::kind_of))]
    pub fn of_letter(letter: u8) -> Option<Kind>
        ensures { result ≡ kind_of letter }
    {
        match letter {
            b'P' => Some(Kind::Pawn),
            b'N' => Some(Kind::Knight),
            b'B' => Some(Kind::Bishop),
            b'R' => Some(Kind::Rook),
            b'Q' => Some(Kind::Queen),
            b'K' => Some(Kind::King),
            _ => None,
        }
    }
}

impl Man {
    /// The letter of a man: that of its kind, for White a capital one and for Black a small one (PGN standard, 16.1.3.1).
    #[tactic(auto, unfolding(crate::specs::Letters::letter_of))]
    pub fn letter(self) -> u8
        ensures { result ≡ letter_of self }
    {
        match self.color {
            Color::White => self.kind.letter(),
            Color::Black => self.kind.letter() + 32,
        }
    }

    /// The man of a letter, or None where the byte is the letter of none.
    #[tactic(auto, unfolding(crate::specs::Letters::man_of))]
    pub fn of_letter(letter: u8) -> Option<Man>
        ensures { result ≡ man_of letter }
    {
        let (color, capital) = if letter >= b'a' {
            (Color::Black, letter - 32)
        } else {
            (Color::White, letter)
        };
        let kind = Kind::of_letter(capital)?;
        Some(Man { color, kind })
    }
}

impl Square {
    /// The letter of the square's file, from a to h (PGN standard, 8.2.3.1).
    pub fn file_letter(self) -> u8
        ensures { result ≡ file_of self + 97 }
    {
        self.file() + b'a'
    }

    /// The digit of the square's rank, from 1 to 8.
    pub fn rank_digit(self) -> u8
        ensures { result ≡ rank_of self + 49 }
    {
        self.rank() + b'1'
    }

    /// The square of a file's letter and a rank's digit, or None where a byte is neither.
    pub fn of_text(file: u8, rank: u8) -> Option<Square>
        ensures { result ≡ square_of file rank }
    {
        if b'a' <= file && file <= b'h' && b'1' <= rank && rank <= b'8' {
            Some(Square::on(file - b'a', rank - b'1'))
        } else {
            None
        }
    }
}

/// Appends the text of a square: the letter of its file and the digit of its rank, as `e4` (PGN standard, 8.2.3.1).
#[tactic(auto, unfolding(crate::specs::Letters::square_text))]
pub fn put_square(at: Square, text: &mut Text) -> Result<(), NoMemory>
    ensures { OnOk result (text.new ≡ text.old ++ square_text at) }
{
    text.push(at.file_letter())?;
    text.push(at.rank_digit())?;
    Ok(())
}
