//! What a token says that stands outside variations.

ghost use Rattle.std.specs.Prelude.{◌≡◌, ◌==◌, ◌≤◌, if◌then◌else◌, length, take, None, OnOk, OnErr};
ghost use Rattle.pgn_lex.specs.declared.kinds.Token.TheVariants.{Word};
ghost use Rattle.pgn_games.specs.Cutting.{mark_of};
ghost use Rattle.pgn_games.specs.Fields.{is_bad, bad_offset, is_unclosed};
ghost use Rattle.pgn_games.specs.Summing.{word_outside, with_word};

use crate::marks::ResultMark;
use crate::played::Words;
use crate::token_turns::{mark, word_mark};
use cha_list::NoMemory;
use pgn_lex::{Placed, Spelling, Token};

/// How many move words of a game are kept.
const KEPT: usize = 12_001;

/// The result that a token tells, where so many variations are open.
pub fn mark_outside(depth: usize, token: &Token) -> Option<ResultMark>
    ensures { result ≡ (if depth == 0 then mark_of token.now else None) }
{
    if depth > 0 {
        return None;
    }
    mark(token)
}

/// Whether a token is none of PGN outside variations.
#[tactic(auto, unfolding(crate::specs::Fields::is_bad))]
fn bad(token: &Token) -> bool
    ensures { result ≡ is_bad token.now }
{
    match token {
        Token::BadTag => true,
        Token::Bad => true,
        Token::Leave => true,
        _ => false,
    }
}

/// The place of a token, if it is a bad one and no variation is open.
pub fn bad_outside(depth: usize, placed: &Placed) -> Option<u64>
    ensures { result ≡ (if depth == 0 then bad_offset placed.now else None) }
{
    if depth > 0 {
        return None;
    }
    if bad(&placed.token) {
        return Some(placed.offset);
    }
    None
}

/// Whether a token is a comment that the end of the input cuts off.
#[tactic(auto, unfolding(crate::specs::Fields::is_unclosed))]
pub fn unclosed(token: &Token) -> bool
    ensures { result ≡ is_unclosed token.now }
{
    match token {
        Token::Unclosed => true,
        _ => false,
    }
}

/// Keeps a word that is a move outside variations, while there is room. On a refusal no word is kept.
pub fn keep_word(depth: usize, word: Spelling, words: &mut Words) -> Result<(), NoMemory>
    requires { length words.old ≤ 12001 }
    ensures ok { OnOk result (words.new ≡ take 12001 (with_word words.old (word_outside depth (Word word)))) }
    ensures err { OnErr result (words.new ≡ words.old) }
{
    if depth > 0 {
        return Ok(());
    }
    if words.items().len() == KEPT {
        return Ok(());
    }
    if word_mark(word.items()).is_some() {
        return Ok(());
    }
    words.push(word)?;
    Ok(())
}
