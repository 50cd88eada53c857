//! Why a game cannot be read.

use cha_fen::FenFault;

/// Why a game cannot be read. The first that applies, in this order, is the fault (this project).
#[derive(Clone, Copy, Debug, PartialEq, Eq)]
pub enum GameFault {
    /// A bracket that begins no tag pair, or, outside variations, a byte that begins nothing or a `)`. The number is the
    /// place of the first of these in the input, from 0.
    BadToken(u64),
    /// A comment in braces or a variation is still open where the game ends.
    Unclosed,
    /// The value of a tag pair has more than 4,096 bytes.
    ValueTooLong,
    /// The Variant tag names another game than chess.
    Variant,
    /// The FEN tag gives no valid position.
    BadStart(FenFault),
    /// There are more than 12,000 move words.
    TooManyPlies,
}
