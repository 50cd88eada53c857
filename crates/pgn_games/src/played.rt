//! A game as it stands in a text.

use crate::faults::GameFault;
use crate::marks::ResultMark;
use cha_board::Position;
use cha_list::Listed;
use pgn_lex::Spelling;

/// Move words in order, each of at least one byte and at most 255.
pub type Words = Listed<Spelling>;

/// A game, with what its text says of it. The moves are words that nobody has resolved yet.
#[derive(Drop)]
pub struct Game {
    /// The position of the FEN tag; the opening position where there is no such tag, or where it gives none.
    pub start: Position,
    /// The result with which the movetext ends, whatever the Result tag says.
    pub recorded: ResultMark,
    /// The Termination tag says that the game was lost on time.
    pub forfeit: bool,
    /// The Termination tag says that a flag fell, also where the game was drawn.
    pub flag_fell: bool,
    /// The move words outside variations, of which the first 12,001 are kept.
    pub words: Words,
    /// How many of the words stand before the first fault of the movetext, at most 12,000. None where a tag has a fault, so that nobody
    /// knows which moves they are.
    pub before_fault: Option<usize>,
    /// Why the game cannot be read, or None.
    pub fault: Option<GameFault>,
}

/// Where a game stands in its text.
#[derive(Clone, Copy, Debug, PartialEq, Eq)]
pub struct Span {
    /// The place of the first byte of its first token, from 0.
    pub start: u64,
    /// The place behind the last byte of its last token, from 0.
    pub end: u64,
    /// The line of its first byte, from 1: one more than the line feeds before it.
    pub line: u64,
}

/// A game and where it stands.
#[derive(Drop)]
pub struct PlacedGame {
    /// Where it stands.
    pub span: Span,
    /// What its text says.
    pub game: Game,
}
