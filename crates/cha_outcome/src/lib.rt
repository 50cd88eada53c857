//! What is judged, and what is found about it: the values that stand between reading, judging and printing. No text is made here,
//! and nothing is searched.
//!
//! `items` has what an input is made of, `unreadable` why a game cannot be read, `questions` what is asked about an item, `status`
//! the state of a position, `rulings` the result of a game, `outcomes` what is found about an item, and `totals` what is counted
//! over outcomes.
#![tactic(auto)]

mod items;
mod outcomes;
mod questions;
mod rulings;
mod status;
mod totals;
mod unreadable;

pub use items::{
    Item, MOST_GAME_BYTES, PlayedGame, ReplayedGame, item_of_game, item_of_kept_game, item_of_line,
    item_of_replay,
};
pub use outcomes::Outcome;
pub use questions::{FlaggedDraws, Question};
pub use rulings::{
    Cause, Claim, Judgment, changes_result, claim_of, fallen_flag, first_examined,
    found_results_stay, judgment_of, ruling,
};
pub use status::{PositionStatus, status_of};
pub use totals::Totals;
pub use unreadable::Unreadable;
