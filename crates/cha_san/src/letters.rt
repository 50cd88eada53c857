//! What the letters, digits and signs of a move word mean (PGN standard, 8.2.3.1 to 8.2.3.8).

ghost use Rattle.std.specs.Prelude.{◌≡◌, ◌<◌, IfSome};
ghost use Rattle.cha_san.specs.Forms.{is_sign, promotion_named, file_named, rank_named};

use cha_board::Kind;
use cha_list::ByteClass;

/// The signs that may stand behind a move: `+`, `#`, `!` and `?`.
#[derive(Clone, Copy)]
pub struct Sign;

impl ByteClass for Sign {
    ghost has = { λ _. is_sign };

    #[tactic(auto, unfolding(crate::specs::Forms::is_sign))]
    fn is_of(self, byte: u8) -> bool {
        byte == b'+' || byte == b'#' || byte == b'!' || byte == b'?'
    }
}

/// What a pawn becomes by a letter.
#[tactic(auto, using(crate::proofs::Promoting::none_named, crate::proofs::Promoting::no_pawn, crate::proofs::Promoting::no_king, crate::proofs::Promoting::as_named))]
pub fn promotion_of(letter: u8) -> Option<Kind>
    ensures { result ≡ promotion_named letter }
{
    match Kind::of_letter(letter) {
        None | Some(Kind::Pawn | Kind::King) => None,
        kind => kind,
    }
}

/// The file of a letter, from 0 for the a-file.
#[tactic(auto, unfolding(crate::specs::Forms::file_named))]
pub fn file_of(letter: u8) -> Option<u8>
    ensures value { result ≡ file_named letter }
    ensures bound { IfSome result (λ file. file < 8) }
{
    if b'a' <= letter && letter <= b'h' {
        Some(letter - b'a')
    } else {
        None
    }
}

/// The rank of a digit, from 0 for the first rank.
#[tactic(auto, unfolding(crate::specs::Forms::rank_named))]
pub fn rank_of(digit: u8) -> Option<u8>
    ensures value { result ≡ rank_named digit }
    ensures bound { IfSome result (λ rank. rank < 8) }
{
    if b'1' <= digit && digit <= b'8' {
        Some(digit - b'1')
    } else {
        None
    }
}
