//! What is to do in one round.

use cha_board::{Color, Position};

/// A round: the root, the side that may mate, and how far it is searched.
#[derive(Clone, Copy, Debug, PartialEq, Eq)]
pub struct RoundTask {
    pub position: Position,
    pub winner: Color,
    /// How many plies, from 1 to 8.
    pub depth: u8,
    /// How many positions each worker may expand, if that is bounded. It is above 3 plies.
    pub allowance: Option<u32>,
}
