//! The tokens of pieces that ended.

ghost use Rattle.std.specs.Prelude.{◌≡◌, ◌+◌, ◌<◌, ◌++◌, List, ℕ, OnOk, OnErr, IfOk, length, take, nat_lt};
ghost use Rattle.pgn_lex.specs.declared.kinds.Token.TheVariants.{Tag};
ghost use Rattle.pgn_lex.specs.Pieces.{word_token};
ghost use Rattle.pgn_lex.specs.Stages.{bad_placed, token_at, tokens_at};
ghost use Rattle.pgn_lex.specs.Tokens.{placed};

use crate::kinds::{Extent, Placed, Token};
use crate::reading::place;
use crate::stages::Stage;
use crate::word_tokens::word_token_of;
use cha_list::{NoMemory, text_of};
use std::alloc::Global;

/// How many bytes of a value are kept.
const KEPT: usize = 4096;

/// The token of a tag pair, from its name and its value, of which one byte more than is kept may be there.
fn tag_said(alloc: Global, name: &[u8], value: &[u8]) -> Result<Token, NoMemory>
    ensures { IfOk result (λ token. token ≡ Tag name.now (take 4096 value.now) (nat_lt 4096 (length value.now))) }
{
    let (kept, _) = value.split_at(value.len().min(KEPT));
    let name = text_of(alloc, name)?;
    let text = text_of(alloc, kept)?;
    Ok(Token::Tag {
        name,
        value: text,
        cut: value.len() > KEPT,
    })
}

/// The token of a piece that ended, from what is kept of its word or name and of its value.
#[tactic(auto, unfolding(crate::specs::Stages::token_at))]
fn said(alloc: Global, stage: Stage, word: &[u8], value: &[u8]) -> Result<Option<Token>, NoMemory>
    ensures { IfOk result (λ token. (w v : List ℕ) → word.now ≡ take 255 w → value.now ≡ take 4097 v → token ≡ token_at stage w v) }
{
    match stage {
        Stage::InComment => Ok(Some(Token::Unclosed)),
        Stage::AfterDollar => Ok(Some(Token::Bad)),
        Stage::InWord => {
            let token = word_token_of(alloc, word)?;
            Ok(token)
        }
        Stage::InTag => Ok(Some(Token::BadTag)),
        Stage::InName => Ok(Some(Token::BadTag)),
        Stage::AfterName => Ok(Some(Token::BadTag)),
        Stage::InValue => Ok(Some(Token::BadTag)),
        Stage::AfterBackslash => Ok(Some(Token::BadTag)),
        Stage::AfterValue => Ok(Some(Token::BadTag)),
        Stage::TagRead => {
            let token = tag_said(alloc, word, value)?;
            Ok(Some(token))
        }
        Stage::Spoilt => Ok(Some(Token::BadTag)),
        Stage::StarRead => Ok(Some(Token::Star)),
        Stage::EnterRead => Ok(Some(Token::Enter)),
        Stage::LeaveRead => Ok(Some(Token::Leave)),
        Stage::BadRead => Ok(Some(Token::Bad)),
        _ => Ok(None),
    }
}

/// A byte of the first line that begins nothing, at a place.
fn bad_at(offset: u64) -> Placed
    requires { offset < 2 }
    ensures { result ≡ record { token = Token.Bad; offset = offset; end = offset + 1; line = 1 } }
{
    Placed {
        token: Token::Bad,
        offset,
        end: offset + 1,
        line: 1,
    }
}

/// Adds the tokens of two bytes at the front that begin nothing.
fn place_two(out: &mut Vec<Placed>) -> Result<(), NoMemory>
    ensures ok { OnOk result (out.new.items ≡ out.old.items ++ (bad_placed 0 ++ bad_placed 1)) }
    ensures err { OnErr result (out.new.items ≡ out.old.items) }
{
    out.try_reserve(2)?;
    let Ok(()) = out.push(bad_at(0)) else {
        unreachable!()
    };
    let Ok(()) = out.push(bad_at(1)) else {
        unreachable!()
    };
    Ok(())
}

/// Adds the token of a word that ended, if it gives one.
#[inline(never)]
fn say_word(alloc: Global, at: Extent, word: &[u8], out: &mut Vec<Placed>) -> Result<(), NoMemory>
    ensures ok { OnOk result (out.new.items ≡ out.old.items ++ placed at.start at.end at.line (word_token word.now)) }
    ensures err { OnErr result (out.new.items ≡ out.old.items) }
{
    let token = word_token_of(alloc, word)?;
    place(token, at, out)
}

/// Adds the tokens of pieces that ended, the last of which stands there. On a refusal none is added.
#[tactic(auto, unfolding(crate::specs::Stages::tokens_at, crate::specs::Stages::token_at))]
// Nearly all pieces are words and white space.
#[inline(always)]
pub fn say(
    alloc: Global,
    stage: Stage,
    at: Extent,
    word: &[u8],
    value: &[u8],
    out: &mut Vec<Placed>,
) -> Result<(), NoMemory>
    ensures ok { OnOk result ((w v : List ℕ) → word.now ≡ take 255 w → value.now ≡ take 4097 v → out.new.items ≡ out.old.items ++ tokens_at stage at.start at.end at.line w v) }
    ensures err { OnErr result (out.new.items ≡ out.old.items) }
{
    match stage {
        Stage::Between => Ok(()),
        Stage::InWord => say_word(alloc, at, word, out),
        _ => say_all(alloc, stage, at, word, value, out),
    }
}

/// The same for any piece.
#[tactic(auto, unfolding(crate::specs::Stages::tokens_at))]
#[inline(never)]
fn say_all(
    alloc: Global,
    stage: Stage,
    at: Extent,
    word: &[u8],
    value: &[u8],
    out: &mut Vec<Placed>,
) -> Result<(), NoMemory>
    ensures ok { OnOk result ((w v : List ℕ) → word.now ≡ take 255 w → value.now ≡ take 4097 v → out.new.items ≡ out.old.items ++ tokens_at stage at.start at.end at.line w v) }
    ensures err { OnErr result (out.new.items ≡ out.old.items) }
{
    match stage {
        Stage::MarkBegun => {
            out.push(bad_at(0))?;
            Ok(())
        }
        Stage::MarkGrown => place_two(out),
        _ => {
            let token = said(alloc, stage, word, value)?;
            place(token, at, out)
        }
    }
}
