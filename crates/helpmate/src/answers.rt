//! What a round answers.

use cha_fact::Line;

/// What is known after a round of a depth.
#[derive(Drop)]
pub enum RoundAnswer {
    /// This line of at most 40 legal moves mates.
    Mate(Line),
    /// No list of at most so many legal moves as the depth mates.
    NoneWithin,
    /// As many positions were expanded as were allowed.
    Spent,
}

/// The end of a round.
#[derive(Drop)]
pub struct RoundDone {
    pub round: RoundAnswer,
    /// How many positions were expanded, each at the end of another line of fewer moves than the depth.
    pub positions: u32,
}
