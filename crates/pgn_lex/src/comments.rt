//! What is passed over: the rest of a line, a comment, an annotation.

ghost use Rattle.std.specs.Prelude.{◌≡◌, ◌≤◌, length};
ghost use Rattle.pgn_lex.specs.Pieces.{line_piece, comment_piece, annotation_piece};

use crate::classes::PgnClass;
use crate::kinds::Token;
use crate::pieces::{Piece, silent, spoken};
use cha_list::{Class, run_of};

/// The rest of the line, after `%` or `;`.
#[tactic(auto, unfolding(crate::specs::Pieces::line_piece))]
pub fn rest_of_line(rest: &[u8]) -> Piece
    ensures value { result ≡ line_piece rest.now }
    ensures bound { result.more ≤ length rest.now }
{
    silent(run_of(Class::InLine, rest))
}

/// A comment, after its `{`.
#[tactic(auto, unfolding(crate::specs::Pieces::comment_piece))]
pub fn comment(rest: &[u8]) -> Piece
    ensures value { result ≡ comment_piece rest.now }
    ensures bound { result.more ≤ length rest.now }
{
    let size = run_of(PgnClass::NotBrace, rest);
    if size == rest.len() {
        return spoken(Token::Unclosed, size);
    }
    silent(size + 1)
}

/// An annotation, after its `$`.
#[tactic(auto, unfolding(crate::specs::Pieces::annotation_piece))]
pub fn annotation(rest: &[u8]) -> Piece
    ensures value { result ≡ annotation_piece rest.now }
    ensures bound { result.more ≤ length rest.now }
{
    let digits = run_of(Class::Digit, rest);
    if digits == 0 {
        return spoken(Token::Bad, 0);
    }
    silent(digits)
}
