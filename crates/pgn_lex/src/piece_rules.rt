//! The table of rules: what the byte at a place begins.

ghost use Rattle.std.specs.Prelude.{◌≡◌, ◌≤◌, IfOk, length};
ghost use Rattle.pgn_lex.specs.Pieces.{is_white};
ghost use Rattle.pgn_lex.specs.Tokens.{piece};

use crate::classes::PgnClass;
use crate::comments::{annotation, comment, rest_of_line};
use crate::kinds::Token;
use crate::pieces::{Piece, silent, spoken};
use crate::tags::tag;
use crate::word_tokens::word;
use cha_list::{ByteClass, NoMemory};
use std::alloc::Global;

/// Whether a byte is white space or a period.
#[tactic(auto, unfolding(crate::specs::Pieces::is_white))]
pub fn white(byte: u8) -> bool
    ensures { result ≡ is_white byte }
{
    (9 <= byte && byte <= 13) || byte == b' ' || byte == b'.'
}

/// The piece that begins with a byte, by the first rule that fits. `first` says that the byte is the first of its
/// line.
#[tactic(auto, unfolding(crate::specs::Tokens::piece))]
pub fn piece_at(alloc: Global, first: bool, byte: u8, rest: &[u8]) -> Result<Piece, NoMemory>
    ensures value { IfOk result (λ found. found ≡ piece first byte rest.now) }
    ensures bound { IfOk result (λ found. found.more ≤ length rest.now) }
{
    if first && byte == b'%' {
        return Ok(rest_of_line(rest));
    }
    if white(byte) {
        return Ok(silent(0));
    }
    match byte {
        b';' => Ok(rest_of_line(rest)),
        b'{' => Ok(comment(rest)),
        b'[' => tag(alloc, rest),
        b'(' => Ok(spoken(Token::Enter, 0)),
        b')' => Ok(spoken(Token::Leave, 0)),
        b'*' => Ok(spoken(Token::Star, 0)),
        b'$' => Ok(annotation(rest)),
        _ => {
            if PgnClass::WordByte.is_of(byte) {
                return word(alloc, byte, rest);
            }
            Ok(spoken(Token::Bad, 0))
        }
    }
}
