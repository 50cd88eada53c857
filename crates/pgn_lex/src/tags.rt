//! Tag pairs: a bracket, a name, a value in quotes and a bracket, on one line.

ghost use Rattle.std.specs.Prelude.{◌≡◌, ◌≤◌, None, Some, IfOk, IfNone, IfSome, length};
ghost use Rattle.pgn_lex.specs.Tags.{past_blanks, past_byte, name_at, tag_or_line, tag_piece};

use crate::classes::PgnClass;
use crate::kinds::Token;
use crate::pieces::{Piece, spoken};
use crate::tag_values::value_of;
use cha_list::{Class, NoMemory, run_of, text_of};
use std::alloc::Global;

/// How many bytes of a name are kept.
const KEPT: usize = 255;

/// What follows spaces and tabs.
fn after_blanks(bytes: &[u8]) -> &[u8]
    ensures value { result.now ≡ past_blanks bytes.now }
    ensures bound { length result.now ≤ length bytes.now }
{
    let (_, rest) = bytes.split_at(run_of(Class::Blank, bytes));
    rest
}

/// What follows a wanted byte, where it stands in front.
#[tactic(auto, unfolding(crate::specs::Tags::past_byte))]
fn after_byte(wanted: u8, bytes: &[u8]) -> Option<&[u8]>
    ensures some { IfSome result (λ rest. past_byte wanted bytes.now ≡ Some rest.now) }
    ensures none { IfNone result (past_byte wanted bytes.now ≡ None) }
    ensures bound { IfSome result (λ rest. length rest.now ≤ length bytes.now) }
{
    match bytes {
        [] => None,
        [byte, rest @ ..] => {
            if *byte == wanted {
                return Some(rest);
            }
            None
        }
    }
}

/// A name in front, and what follows it.
#[tactic(auto, unfolding(crate::specs::Tags::name_at))]
fn name_of(bytes: &[u8]) -> Option<(&[u8], &[u8])>
    ensures some { IfSome result (λ found.
        name_at bytes.now ≡ Some (record { text = found.0.now; rest = found.1.now })) }
    ensures none { IfNone result (name_at bytes.now ≡ None) }
    ensures bound { IfSome result (λ found. length found.1.now ≤ length bytes.now) }
{
    let size = run_of(PgnClass::NameByte, bytes);
    if size == 0 {
        return None;
    }
    Some(bytes.split_at(size))
}

/// A bracket that begins no tag pair.
fn no_tag(rest: &[u8]) -> Piece
    ensures value { result ≡ tag_or_line rest.now None }
    ensures bound { result.more ≤ length rest.now }
{
    spoken(Token::BadTag, run_of(Class::InLine, rest))
}

/// A tag pair, after its `[`.
#[tactic(auto, unfolding(crate::specs::Tags::tag_piece, crate::specs::Tags::tag_at))]
pub fn tag(alloc: Global, rest: &[u8]) -> Result<Piece, NoMemory>
    ensures value { IfOk result (λ piece. piece ≡ tag_piece rest.now) }
    ensures bound { IfOk result (λ piece. piece.more ≤ length rest.now) }
{
    let Some((name, named)) = name_of(after_blanks(rest)) else {
        return Ok(no_tag(rest));
    };
    let Some(opened) = after_byte(b'"', after_blanks(named)) else {
        return Ok(no_tag(rest));
    };
    let Some(value) = value_of(alloc, opened)? else {
        return Ok(no_tag(rest));
    };
    let (_, closed) = opened.split_at(value.size);
    let Some(end) = after_byte(b']', after_blanks(closed)) else {
        return Ok(no_tag(rest));
    };
    let (kept, _) = name.split_at(name.len().min(KEPT));
    let name = text_of(alloc, kept)?;
    let token = Token::Tag {
        name,
        value: value.text,
        cut: value.cut,
    };
    Ok(spoken(token, rest.len() - end.len()))
}
