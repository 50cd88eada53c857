//! Positions of tests, from FEN.

use cha_board::Position;
use cha_fen::read;
use std::process::Abort;

/// The position of a text.
pub fn place(rt: &impl Abort, fen: &str) -> Position {
    read(fen.as_bytes()).expect(rt, "a position")
}
