//! The text of a game with another result.

ghost use Rattle.std.specs.Prelude.{◌≡◌, ◌==◌, ◌||◌, ◌++◌, OnOk, IfOk, take, drop};
ghost use Rattle.pgn_lex.specs.declared.classes.PgnClass.TheVariants.{WordByte};
ghost use Rattle.pgn_lex.specs.Classes.{in_pgn_class};
ghost use Rattle.pgn_results.specs.Places.{with_token_there, with_tag_there};
ghost use Rattle.pgn_results.specs.Replacing.{leans as leans_of, begins_word as begins_word_of, apart, with_token as with_token_of, is_word as is_word_of, game_with_mark};

use crate::places::{Extent, result_places};
use crate::quotes::put_with_value;
use cha_list::{ByteClass, NoMemory, Text, text_of};
use pgn_games::{ResultMark, put_mark};
use pgn_lex::{PgnClass, tokens_of};
use std::alloc::Global;

/// The bytes before a place; all, where there are fewer.
fn before(bytes: &[u8], place: u64) -> &[u8]
    ensures { result.now ≡ take place bytes.now }
{
    let size = place.min(bytes.len() as u64) as usize;
    bytes.split_at(size).0
}

/// The bytes from a place on; none, where there are fewer.
fn behind(bytes: &[u8], place: u64) -> &[u8]
    ensures { result.now ≡ drop place bytes.now }
{
    let size = place.min(bytes.len() as u64) as usize;
    bytes.split_at(size).1
}

/// Whether a word byte behind this one would go on with it.
fn is_open(byte: u8) -> bool
    ensures { result ≡ (in_pgn_class WordByte byte || (byte == 36)) }
{
    PgnClass::WordByte.is_of(byte) || byte == b'$'
}

/// Whether the last byte is one of a word, or a dollar sign.
fn leans(bytes: &[u8]) -> bool
    ensures { result ≡ leans_of bytes.now }
{
    let mut found = false;
    for byte in bytes {
        found = is_open(*byte);
    }
    found
}

/// Whether the first byte is one of a word.
fn begins_word(bytes: &[u8]) -> bool
    ensures { result ≡ begins_word_of bytes.now }
{
    match bytes {
        [first, ..] => PgnClass::WordByte.is_of(*first),
        _ => false,
    }
}

/// Two texts, with a space between them only where they would make one word.
fn join_apart(alloc: Global, front: &[u8], back: &[u8]) -> Result<Text, NoMemory>
    ensures { IfOk result (λ text. text ≡ apart front.now back.now) }
{
    let mut text = text_of(alloc, front)?;
    if leans(front) && begins_word(back) {
        text.append(b" ")?;
    }
    text.append(back)?;
    Ok(text)
}

/// A text with a result in place of a token.
fn with_token(
    alloc: Global,
    mark: ResultMark,
    token: Extent,
    bytes: &[u8],
) -> Result<Text, NoMemory>
    ensures { IfOk result (λ text. text ≡ with_token_of mark token.start token.end bytes.now) }
{
    let mut told = Text::new(alloc);
    put_mark(mark, &mut told)?;
    let back = join_apart(alloc, told.items(), behind(bytes, token.end))?;
    join_apart(alloc, before(bytes, token.start), back.items())
}

/// A text with a result in place of a token, if there is one.
fn with_token_there(
    alloc: Global,
    mark: ResultMark,
    token: Option<Extent>,
    bytes: &[u8],
) -> Result<Text, NoMemory>
    ensures { IfOk result (λ text. text ≡ with_token_there mark token bytes.now) }
{
    match token {
        Some(token) => with_token(alloc, mark, token, bytes),
        None => text_of(alloc, bytes),
    }
}

/// Appends a text with a result as the value of a tag pair, if there is one.
fn put_with_tag(
    mark: ResultMark,
    tag: Option<u64>,
    bytes: &[u8],
    text: &mut Text,
) -> Result<(), NoMemory>
    ensures { OnOk result (text.new ≡ text.old ++ with_tag_there mark tag bytes.now) }
{
    match tag {
        Some(start) => {
            text.append(before(bytes, start))?;
            put_with_value(mark, behind(bytes, start), text)
        }
        None => text.append(bytes),
    }
}

/// Whether a result is told by a word.
fn is_word(mark: ResultMark) -> bool
    ensures { result ≡ is_word_of mark }
{
    match mark {
        ResultMark::WhiteWins => true,
        ResultMark::BlackWins => true,
        ResultMark::Draw => true,
        ResultMark::Unknown => false,
    }
}

/// Appends the bytes of a game with another result.
///
/// `game` has the bytes of one game, from its first token to its last, and `behind` begins with the byte that follows, if there is one;
/// it is not appended. The value of the first tag pair `Result` is replaced, and the result that ends the game; where one of them is
/// missing, only the other is. All other bytes stay. A space is put beside a result only where a star was and a word touches it, as in
/// `e4*`. The only error is want of memory.
pub fn put_with_mark(
    alloc: Global,
    mark: ResultMark,
    game: &[u8],
    behind: &[u8],
    text: &mut Text,
) -> Result<(), NoMemory>
    ensures { OnOk result (text.new ≡ text.old ++ game_with_mark mark game.now behind.now) }
{
    let tokens = tokens_of(alloc, game)?;
    let places = result_places(tokens.as_slice());
    let ended = with_token_there(alloc, mark, places.token, game)?;
    put_with_tag(mark, places.tag, ended.items(), text)?;
    if places.token.is_some() && is_word(mark) && begins_word(behind) {
        text.append(b" ")?;
    }
    Ok(())
}
