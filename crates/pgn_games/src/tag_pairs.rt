//! What the tag pairs of a game say.

ghost use Rattle.std.specs.Prelude.{◌≡◌, if◌then◌else◌, not, Some, None, codes};
ghost use Rattle.std.specs.Option.{option_or};
ghost use Rattle.std.specs.Str.{bytes_eq, str_eq_ignore_ascii_case};
ghost use Rattle.pgn_games.specs.Fields.{is_cut, says_forfeit, speaks_of as speaks_of_words, says_flag_fell, says_chess, passes};
ghost use Rattle.pgn_games.specs.Games.{opening, start_of, start_fault};

use crate::faults::GameFault;
use cha_board::Position;
use cha_fen::read;
use cha_list::Text;
use pgn_lex::Token;

/// The values that count: of each name the value of the first tag pair. Letters of a name count with their case.
#[derive(Drop)]
pub struct TagValues {
    pub variant: Option<Text>,
    pub fen: Option<Text>,
    pub termination: Option<Text>,
}

/// Keeps the value of a tag pair, if it is the first of its name.
fn keep_first(kept: &mut Option<Text>, value: Text)
    ensures { kept.new ≡ option_or kept.old (Some value) }
{
    if kept.is_none() {
        *kept = Some(value);
    }
}

impl TagValues {
    /// No value.
    pub fn new() -> TagValues
        ensures { (result.variant ≡ None) × (result.fen ≡ None) × (result.termination ≡ None) }
    {
        TagValues {
            variant: None,
            fen: None,
            termination: None,
        }
    }

    /// Keeps what a tag pair says.
    pub fn keep(&mut self, name: &[u8], value: Text)
        ensures variant { self.new.variant ≡ option_or self.old.variant (if bytes_eq name.now (codes "Variant") then Some value else None) }
        ensures fen { self.new.fen ≡ option_or self.old.fen (if bytes_eq name.now (codes "FEN") then Some value else None) }
        ensures termination { self.new.termination ≡ option_or self.old.termination (if bytes_eq name.now (codes "Termination") then Some value else None) }
    {
        if name == b"Variant".as_slice() {
            keep_first(&mut self.variant, value);
            return;
        }
        if name == b"FEN".as_slice() {
            keep_first(&mut self.fen, value);
            return;
        }
        if name == b"Termination".as_slice() {
            keep_first(&mut self.termination, value);
        }
    }
}

/// Whether the value of a tag pair is longer than what is kept of it.
#[tactic(auto, unfolding(crate::specs::Fields::is_cut))]
pub fn was_cut(token: &Token) -> bool
    ensures { result ≡ is_cut token.now }
{
    match token {
        Token::Tag { cut, .. } => *cut,
        _ => false,
    }
}

/// Whether two texts are the same but for the case of ASCII letters.
fn reads(value: &[u8], wanted: &[u8]) -> bool
    ensures { result ≡ str_eq_ignore_ascii_case value.now wanted.now }
{
    value.eq_ignore_ascii_case(wanted)
}

/// Whether a Termination value says that the game was lost on time.
#[tactic(auto, unfolding(crate::specs::Fields::says_forfeit))]
fn lost_on_time(value: &[u8]) -> bool
    ensures { result ≡ says_forfeit value.now }
{
    if reads(value, b"time forfeit") {
        return true;
    }
    let ending = b"won on time";
    let (_front, tail) = value.split_at(value.len().saturating_sub(ending.len()));
    reads(tail, ending)
}

/// Whether the Termination tag says that the game was lost on time.
pub fn forfeited(termination: &Option<Text>) -> bool
    ensures { result ≡ passes says_forfeit termination.now }
{
    match termination {
        Some(value) => lost_on_time(value.items()),
        None => false,
    }
}

/// Whether a text says these words somewhere, whatever the case of ASCII letters.
#[tactic(auto, unfolding(crate::specs::Fields::speaks_of))]
fn speaks_of(value: &[u8], wanted: &[u8]) -> bool
    ensures { result ≡ speaks_of_words wanted.now value.now }
{
    let mut rest = value;
    while !rest.is_empty() {
        let size = wanted.len().min(rest.len());
        if reads(rest.split_at(size).0, wanted) {
            return true;
        }
        rest = rest.split_at(1).1;
    }
    false
}

/// Whether a Termination value says that a flag fell.
#[tactic(auto, unfolding(crate::specs::Fields::says_flag_fell))]
fn tells_of_a_flag(value: &[u8]) -> bool
    ensures { result ≡ says_flag_fell value.now }
{
    reads(value, b"time forfeit") || speaks_of(value, b"timeout vs insufficient material")
}

/// Whether the Termination tag says that a flag fell, also where the game was drawn.
pub fn flag_fell(termination: &Option<Text>) -> bool
    ensures { result ≡ passes says_flag_fell termination.now }
{
    match termination {
        Some(value) => tells_of_a_flag(value.items()),
        None => false,
    }
}

/// Whether a Variant value means chess.
#[tactic(auto, unfolding(crate::specs::Fields::says_chess))]
fn means_chess(value: &[u8]) -> bool
    ensures { result ≡ says_chess value.now }
{
    reads(value, b"standard")
        || reads(value, b"chess")
        || reads(value, b"normal")
        || reads(value, b"from position")
}

/// Whether the Variant tag names another game than chess.
pub fn other_game(variant: &Option<Text>) -> bool
    ensures { result ≡ passes (λ value. not (says_chess value)) variant.now }
{
    match variant {
        Some(value) => !means_chess(value.items()),
        None => false,
    }
}

/// Where a game starts, by its FEN tag.
#[tactic(auto, unfolding(crate::specs::Games::start_of))]
pub fn started(fen: &Option<Text>) -> Position
    ensures { result ≡ start_of fen.now }
{
    match fen {
        Some(value) => match read(value.items()) {
            Ok(position) => position,
            Err(_) => first_position(),
        },
        None => first_position(),
    }
}

/// The opening position.
#[tactic(auto, unfolding(crate::specs::Games::opening))]
fn first_position() -> Position
    ensures { result ≡ opening }
{
    Position::start()
}

/// The fault of a FEN tag.
#[tactic(auto, unfolding(crate::specs::Games::start_fault))]
pub fn start_refused(fen: &Option<Text>) -> Option<GameFault>
    ensures { result ≡ start_fault fen.now }
{
    match fen {
        Some(value) => match read(value.items()) {
            Ok(_) => None,
            Err(fault) => Some(GameFault::BadStart(fault)),
        },
        None => None,
    }
}
