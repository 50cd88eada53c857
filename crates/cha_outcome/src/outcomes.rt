//! What is found about an item.

ghost use Rattle.std.specs.Prelude.{◌≡◌};
ghost use Rattle.cha_outcome.specs.Outcomes.{is_refused as is_refused_of, is_dead_position as is_dead_position_of, is_changed_game as is_changed_game_of, new_result as new_result_of, is_open as is_open_of, has_mates as has_mates_of, has_open_side as has_open_side_of};

use crate::items::{PlayedGame, ReplayedGame};
use crate::rulings::{Judgment, changes_result};
use crate::status::PositionStatus;
use crate::unreadable::Unreadable;
use cha_board::Position;
use cha_fen::FenFault;
use cha_verdict::{Decision, Scan, is_undecided};
use helpmate_list::Shortest;
use pgn_games::{ResultMark, Span};

/// What is found about an item. It holds the item.
#[derive(Drop)]
pub enum Outcome {
    /// The verdicts on both sides of a position.
    JudgedPosition {
        /// The number of the line, from 1.
        line: u64,
        position: Position,
        decision: Decision,
        /// The status of the position, by the verdicts.
        status: PositionStatus,
    },
    /// The verdicts on both sides of the final position of a game.
    JudgedGame {
        game: PlayedGame,
        decision: Decision,
        /// From where on the game was dead, where its final position is shown dead.
        scan: Option<Scan>,
        /// The status of the final position, by the verdicts.
        status: PositionStatus,
        /// The result of the game.
        judgment: Judgment,
    },
    /// The shortest mates of a side.
    ListedMates {
        /// The number of the line, from 1.
        line: u64,
        position: Position,
        /// Within how many plies they were looked for.
        depth: u8,
        shortest: Shortest,
    },
    /// The line is no position.
    RefusedLine {
        /// The number of the line, from 1.
        line: u64,
        fault: FenFault,
    },
    /// The game cannot be read.
    UnreadableGame {
        /// Where it stands in its text.
        span: Span,
        why: Unreadable,
    },
    /// The moves of a game, which is not judged.
    Replayed(ReplayedGame),
}

/// Whether nothing was shown about one of the sides.
fn has_open_side(decision: &Decision) -> bool
    ensures { result ≡ has_open_side_of decision.now }
{
    is_undecided(&decision.white) || is_undecided(&decision.black)
}

impl Outcome {
    /// Whether the line is refused, or the game cannot be read.
    #[tactic(auto, unfolding(crate::specs::Outcomes::is_refused))]
    pub fn is_refused(&self) -> bool
        ensures { result ≡ is_refused_of self.now }
    {
        match self {
            Outcome::RefusedLine { .. } => true,
            Outcome::UnreadableGame { .. } => true,
            Outcome::Replayed(game) => game.why.is_some(),
            _ => false,
        }
    }

    /// Whether it is a position that is dead.
    #[tactic(auto, unfolding(crate::specs::Outcomes::is_dead_position))]
    pub fn is_dead_position(&self) -> bool
        ensures { result ≡ is_dead_position_of self.now }
    {
        match self {
            Outcome::JudgedPosition { status, .. } => status.is_dead(),
            _ => false,
        }
    }

    /// Whether it is a game that has another result than the recorded one.
    #[tactic(auto, unfolding(crate::specs::Outcomes::is_changed_game))]
    pub fn is_changed_game(&self) -> bool
        ensures { result ≡ is_changed_game_of self.now }
    {
        match self {
            Outcome::JudgedGame { game, judgment, .. } => changes_result(game.recorded, *judgment),
            _ => false,
        }
    }

    /// The result that a game gets in place of the recorded one, or None where that stays.
    #[tactic(auto, unfolding(crate::specs::Outcomes::new_result))]
    pub fn new_result(&self) -> Option<ResultMark>
        ensures { result ≡ new_result_of self.now }
    {
        match self {
            Outcome::JudgedGame { game, judgment, .. } => {
                if changes_result(game.recorded, *judgment) {
                    return Some(judgment.mark);
                }
                None
            }
            _ => None,
        }
    }

    /// Whether it has a side of which nothing was shown.
    #[tactic(auto, unfolding(crate::specs::Outcomes::is_open))]
    pub fn is_open(&self) -> bool
        ensures { result ≡ is_open_of self.now }
    {
        match self {
            Outcome::JudgedPosition { decision, .. } => has_open_side(decision),
            Outcome::JudgedGame { decision, .. } => has_open_side(decision),
            _ => false,
        }
    }

    /// Whether it is a position that has a mate.
    #[tactic(auto, unfolding(crate::specs::Outcomes::has_mates))]
    pub fn has_mates(&self) -> bool
        ensures { result ≡ has_mates_of self.now }
    {
        match self {
            Outcome::ListedMates { shortest, .. } => matches!(shortest, Shortest::Found { .. }),
            _ => false,
        }
    }
}
