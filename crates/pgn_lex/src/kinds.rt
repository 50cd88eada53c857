//! The tokens of PGN, and where they stand.

use crate::spelling::Spelling;
use cha_list::Text;

/// What a piece of a PGN text says. White space, comments, annotations as `$5`, move numbers, and judgements as `!?` that
/// stand alone have no token.
#[derive(Drop)]
pub enum Token {
    /// A tag pair, as `[White "Carlsen"]` (PGN standard, 8.1). The name has at least one byte, and the first 255 are kept.
    /// In the value `\"` stands for `"` and `\\` for `\`; the first 4,096 bytes that result are kept, and `cut` says that
    /// there were more.
    Tag { name: Text, value: Text, cut: bool },
    /// A bracket that begins no tag pair on its line. It stands for the rest of the line.
    BadTag,
    /// A word, as `e4`, `O-O-O+` or `1/2-1/2`, of which the first 255 bytes are kept.
    Word(Spelling),
    /// `*`, the mark of a game without a result (PGN standard, 8.2.6).
    Star,
    /// `(`, which begins a variation (PGN standard, 8.2.5).
    Enter,
    /// `)`, which ends a variation.
    Leave,
    /// A byte that begins nothing, as `]`, `"` or any byte above 127.
    Bad,
    /// A comment in braces that the end of the input cuts off.
    Unclosed,
}

/// A token and where it stands in the input. The bytes EF BB BF at the front count too.
#[derive(Drop)]
pub struct Placed {
    pub token: Token,
    /// The place of its first byte, from 0.
    pub offset: u64,
    /// The place behind its last byte, from 0.
    pub end: u64,
    /// The line of its first byte, from 1: one more than the line feeds (byte 10) before it.
    pub line: u64,
}

/// Where a piece stands, as in `Placed`.
#[derive(Clone, Copy, Debug, PartialEq, Eq)]
pub struct Extent {
    pub start: u64,
    pub end: u64,
    pub line: u64,
}
