//! A text of games with other results, where nothing but the results changes.
//!
//! `places` finds where a game tells its result, `replacing` writes the text of a game with another one, `kept` reads games and keeps the
//! bytes that are not written yet, on `intake`, and `law` has the laws that the games stay the same, that each may be written alone, and
//! before the rest of its text.
#![tactic(auto)]

mod intake;
mod kept;
mod law;
mod places;
mod quotes;
mod replacing;

pub use kept::KeptReader;
pub use law::{
    a_result_alone_has_no_move, corrected_games_stay_the_same, games_are_corrected_one_by_one,
    written_games_are_a_front,
};
pub use places::{ResultPlaces, result_places};
pub use replacing::put_with_mark;
