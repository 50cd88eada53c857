//! Words: moves, results and move numbers.

ghost use Rattle.std.specs.Prelude.{◌≡◌, ◌≤◌, ◌||◌, IfOk, length};
ghost use Rattle.std.specs.List.{list_all};
ghost use Rattle.cha_list.specs.declared.classes.Class.TheVariants.{Digit};
ghost use Rattle.cha_list.specs.Bytes.{in_class};
ghost use Rattle.pgn_lex.specs.declared.classes.PgnClass.TheVariants.{Mark};
ghost use Rattle.pgn_lex.specs.Classes.{in_pgn_class};
ghost use Rattle.pgn_lex.specs.Pieces.{word_token, word_piece};

use crate::classes::PgnClass;
use crate::kinds::Token;
use crate::pieces::Piece;
use crate::spelling::Spelling;
use cha_list::{Class, NoMemory, all_of, run_of};
use std::alloc::Global;

/// How many bytes of a word are kept.
const KEPT: usize = 255;

/// Whether a word gives no token: a move number, or signs that judge a move.
fn gives_none(word: &[u8]) -> bool
    ensures { result ≡ (list_all (in_class Digit) word.now || list_all (in_pgn_class Mark) word.now) }
{
    all_of(Class::Digit, word) || all_of(PgnClass::Mark, word)
}

/// The token of a word, by the bytes that are kept of it.
#[tactic(auto, unfolding(crate::specs::Pieces::word_token))]
fn word_said(word: Spelling) -> Option<Token>
    ensures { result ≡ word_token word }
{
    if gives_none(word.items()) {
        return None;
    }
    Some(Token::Word(word))
}

/// The token of the bytes of a word. It takes memory only for a word of more than 16 bytes.
#[tactic(auto, unfolding(crate::specs::Pieces::word_token))]
pub fn word_token_of(alloc: Global, word: &[u8]) -> Result<Option<Token>, NoMemory>
    ensures { IfOk result (λ token. token ≡ word_token word.now) }
{
    if gives_none(word) {
        return Ok(None);
    }
    Ok(Some(Token::Word(Spelling::of(alloc, word)?)))
}

/// A word, which begins with this byte.
pub fn word(alloc: Global, byte: u8, rest: &[u8]) -> Result<Piece, NoMemory>
    ensures value { IfOk result (λ piece. piece ≡ word_piece byte rest.now) }
    ensures bound { IfOk result (λ piece. piece.more ≤ length rest.now) }
{
    let size = run_of(PgnClass::WordByte, rest);
    let (run, _) = rest.split_at(size);
    let (kept, _) = run.split_at(size.min(KEPT - 1));
    let mut text = Spelling::of(alloc, &[byte])?;
    text.append(kept)?;
    Ok(Piece {
        more: size,
        token: word_said(text),
    })
}
