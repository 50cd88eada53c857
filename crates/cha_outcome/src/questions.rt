//! What is asked about an item.

use cha_board::Color;
use cha_limits::Limits;

/// What becomes of a game that is recorded as drawn though its text says that a flag fell.
#[derive(Clone, Copy, Debug, PartialEq, Eq)]
pub enum FlaggedDraws {
    /// The draw stands.
    Stand,
    /// It is taken that the flag of the player to move fell, for that player's clock alone runs (Laws of Chess, Article 6.2.1): the
    /// other player wins, if that player can mate (Article 6.9).
    Examined,
}

/// What is asked about each item of an input.
#[derive(Clone, Copy, Debug, PartialEq, Eq)]
pub enum Question {
    /// Whether each side can still mate, by a search within these limits; of a game also its result, and from where on neither side
    /// can mate.
    Verdicts(Limits, FlaggedDraws),
    /// What the shortest mates are. It is asked about positions alone.
    Mates {
        /// The side that mates.
        side: Color,
        /// Within how many plies mates are looked for, at most 6.
        depth: u8,
    },
    /// Which moves it has. It is asked about games alone, and nothing is judged.
    Plies,
}
