//! Why a move word, or a game, cannot be played.

/// Why a word of SAN names no move.
#[derive(Clone, Copy, Debug, PartialEq, Eq)]
pub enum SanFault {
    /// The word does not have the form of a move (PGN standard, 8.2.3).
    NotSan,
    /// No legal move fits the word.
    NoSuchMove,
    /// Two legal moves or more fit the word.
    Ambiguous,
    /// The allocator refused memory for what words name. No word is resolved to it.
    NoMemory,
}

/// The first word of a game that names no move.
#[derive(Clone, Copy, Debug, PartialEq, Eq)]
pub struct PlayFault {
    /// The number of the word in the game, from 1. Where the fault is `NoMemory` it says nothing.
    pub ply: u32,
    /// What is wrong with the word.
    pub fault: SanFault,
}
