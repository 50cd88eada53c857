//! The guides that there are.

/// Which guide leads an exploration.
#[derive(Clone, Copy, Debug, PartialEq, Eq)]
pub enum Guide {
    /// It takes men first, and then leads the loser's king into a corner.
    Corner,
    /// It takes squares away from the loser's king.
    Flights,
    /// It does both at once.
    Balance,
}
