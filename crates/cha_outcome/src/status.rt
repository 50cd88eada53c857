//! The status of a position.

ghost use Rattle.std.specs.Prelude.{◌≡◌};
ghost use Rattle.cha_outcome.specs.PositionStatuses.{status_of as status_from, is_dead as is_dead_status};

use cha_moves::Standing;
use cha_verdict::{Verdict, are_dead, is_winnable};

/// The status of a position: the first of these that fits.
#[derive(Clone, Copy, Debug, PartialEq, Eq)]
pub enum PositionStatus {
    /// The side to move is checkmated.
    Checkmate,
    /// The side to move is stalemated.
    Stalemate,
    /// Neither side can mate.
    Dead,
    /// A side can mate.
    Live,
    /// No side was shown able to mate, and at least one was not shown unable to.
    Unclear,
}

/// The status of a position, by how it stands and the verdicts on both sides.
#[tactic(auto, unfolding(crate::specs::PositionStatuses::status_of))]
pub fn status_of(standing: Standing, white: &Verdict, black: &Verdict) -> PositionStatus
    ensures { result ≡ status_from standing white.now black.now }
{
    match standing {
        Standing::Mate(_) => PositionStatus::Checkmate,
        Standing::Stalemate => PositionStatus::Stalemate,
        Standing::Running => {
            if are_dead(white, black) {
                return PositionStatus::Dead;
            }
            if is_winnable(white) || is_winnable(black) {
                return PositionStatus::Live;
            }
            PositionStatus::Unclear
        }
    }
}

impl PositionStatus {
    /// Whether neither side can mate, with neither mate nor stalemate on the board.
    #[tactic(auto, unfolding(crate::specs::PositionStatuses::is_dead))]
    pub fn is_dead(self) -> bool
        ensures { result ≡ is_dead_status self }
    {
        matches!(self, PositionStatus::Dead)
    }
}
