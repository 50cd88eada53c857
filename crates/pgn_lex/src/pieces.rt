//! A piece of a text: the bytes that one rule takes.

ghost use Rattle.std.specs.Prelude.{◌≡◌};
ghost use Rattle.pgn_lex.specs.Pieces.{silent_piece, spoken_piece};

use crate::kinds::Token;

/// A piece: its first byte, so many bytes more, and the token that it gives, if it gives one.
#[derive(Drop)]
pub struct Piece {
    pub more: usize,
    pub token: Option<Token>,
}

/// A piece without a token.
pub fn silent(more: usize) -> Piece
    ensures { result ≡ silent_piece more }
{
    Piece { more, token: None }
}

/// A piece with a token.
pub fn spoken(token: Token, more: usize) -> Piece
    ensures { result ≡ spoken_piece token more }
{
    Piece {
        more,
        token: Some(token),
    }
}
