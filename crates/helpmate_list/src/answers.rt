//! What is answered about the shortest mates.

use cha_list::Listed;
use cha_moves::Moves;

/// A list of lines of moves.
pub type Lines = Listed<Moves>;

/// How many lines an answer has at most.
pub const MOST_LINES: usize = 200;

/// The shortest mates of a side within a number of plies.
#[derive(Drop)]
pub enum Shortest {
    /// No list of at most so many legal moves mates.
    NoneWithin,
    /// Lists of legal moves mate.
    Found {
        /// The least number of moves of such a list.
        plies: u8,
        /// The first 200 of all lists of that many moves that mate: by their first move in the order of the legal moves, then
        /// by the second, and so on.
        lines: Lines,
        /// Whether there are over 200.
        more: bool,
    },
}
