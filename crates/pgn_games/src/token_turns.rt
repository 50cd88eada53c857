//! What a token does to the game that is being read.

ghost use Rattle.std.specs.Prelude.{◌≡◌, ◌&&◌, ◌+◌, ◌-◌, ◌^◌, ◌<◌, ◌≤◌, length};
ghost use Rattle.pgn_lex.specs.declared.kinds.Token.TheVariants.{Word};
ghost use Rattle.pgn_games.specs.Cutting.{mark_of, is_tag, depth_after, open_at, turn, place_after, place_behind, is_before};

use crate::marks::ResultMark;
use pgn_lex::{Placed, Token};

/// Where a reader of tokens stands.
#[derive(Clone, Copy, Debug, PartialEq, Eq)]
pub enum Place {
    /// Before a game.
    Before,
    /// Among the tags of a game.
    Tags,
    /// In the movetext, with so many variations open.
    Moves(usize),
}

/// What a token does to the game that is being read.
#[derive(Clone, Copy, Debug, PartialEq, Eq)]
pub enum Turn {
    /// It belongs to the game, which goes on from there.
    Stays(Place),
    /// It belongs to the game, and ends it.
    Ends,
    /// It begins the next game.
    Begins,
}

/// The result that a word tells.
#[tactic(auto, unfolding(crate::specs::Cutting::mark_of))]
pub fn word_mark(word: &[u8]) -> Option<ResultMark>
    ensures { result ≡ mark_of (Word word.now) }
{
    if word == b"1-0".as_slice() {
        return Some(ResultMark::WhiteWins);
    }
    if word == b"0-1".as_slice() {
        return Some(ResultMark::BlackWins);
    }
    if word == b"1/2-1/2".as_slice() {
        return Some(ResultMark::Draw);
    }
    None
}

/// The result that a word or a star tells.
#[tactic(auto, unfolding(crate::specs::Cutting::mark_of))]
pub fn mark(token: &Token) -> Option<ResultMark>
    ensures { result ≡ mark_of token.now }
{
    match token {
        Token::Word(word) => word_mark(word.items()),
        Token::Star => Some(ResultMark::Unknown),
        _ => None,
    }
}

/// Whether a token stands among the tags of a game.
#[tactic(auto, unfolding(crate::specs::Cutting::is_tag))]
fn among_tags(token: &Token) -> bool
    ensures { result ≡ is_tag token.now }
{
    match token {
        Token::Tag { .. } => true,
        Token::BadTag => true,
        _ => false,
    }
}

/// How many variations are open after a token.
#[tactic(auto, unfolding(crate::specs::Cutting::depth_after))]
pub fn deeper(depth: usize, token: &Token) -> usize
    requires { depth < 2 ^ 64 - 1 }
    ensures value { result ≡ depth_after depth token.now }
    ensures bound { result ≤ depth + 1 }
{
    match token {
        Token::Enter => depth + 1,
        Token::Leave => depth.saturating_sub(1),
        _ => depth,
    }
}

/// What a token does to the game being read: it goes on, ends, or the next one begins.
#[tactic(auto, unfolding(crate::specs::Cutting::turn))]
pub fn turned(place: Place, token: &Token) -> Turn
    requires { open_at place < 2 ^ 64 - 1 }
    ensures { result ≡ turn place token.now }
{
    if among_tags(token) {
        return match place {
            Place::Moves(_) => Turn::Begins,
            _ => Turn::Stays(Place::Tags),
        };
    }
    let depth = match place {
        Place::Moves(depth) => depth,
        _ => 0,
    };
    if depth == 0 && mark(token).is_some() {
        return Turn::Ends;
    }
    Turn::Stays(Place::Moves(deeper(depth, token)))
}

/// The place after a turn.
fn turned_to(turn: Turn) -> Place
    ensures { result ≡ place_after turn }
{
    match turn {
        Turn::Stays(place) => place,
        Turn::Ends => Place::Before,
        Turn::Begins => Place::Tags,
    }
}

/// The place in a game that these tokens lead to from a given place.
pub fn led_to(place: Place, tokens: &[Placed]) -> Place
    requires { open_at place + length tokens.now < 2 ^ 64 - 1 }
    ensures { result ≡ place_behind place tokens.now }
{
    let mut stand = place;
    for placed in tokens {
        stand = turned_to(turned(stand, &placed.token));
    }
    stand
}

/// Whether a reader is as new: at the beginning of a line, where `line` says so, with no game open.
pub fn is_as_new(line: bool, place: Place) -> bool
    ensures { result ≡ (line && is_before place) }
{
    match place {
        Place::Before => line,
        Place::Tags => false,
        Place::Moves(_) => false,
    }
}
