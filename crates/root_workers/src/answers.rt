//! What the rounds answer.

use cha_fact::Line;

/// What is known after the rounds.
#[derive(Drop)]
pub enum RoundsEnd {
    /// This line of at most 40 legal moves mates.
    Mate(Line),
    /// No list of at most so many legal moves mates. The number is at least 2.
    NoneWithin(u8),
}
