//! What a move word says.

use cha_board::{Kind, Square};

/// The parts of a word that is no castling. Files and ranks are numbers from 0 to 7.
#[derive(Clone, Copy)]
pub struct Parts {
    /// The kind of the man that moves.
    pub kind: Kind,
    /// The file that it leaves, if the word names one.
    pub file: Option<u8>,
    /// The rank that it leaves, if the word names one.
    pub rank: Option<u8>,
    /// Where it goes.
    pub to: Square,
    /// What it becomes, if the word names this.
    pub promotion: Option<Kind>,
}

/// What a move word says.
#[derive(Clone, Copy)]
pub enum Form {
    /// Castling on the king's side.
    Short,
    /// Castling on the queen's side.
    Long,
    /// Another move.
    Plain(Parts),
}
