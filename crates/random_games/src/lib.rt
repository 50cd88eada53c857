//! Games whose moves are drawn, as a text in PGN.
//!
//! `words` has a move as a word, `games` one game, and `texts` the text of many.
#![tactic(auto)]

mod games;
mod law;
mod texts;
mod words;

pub use law::made_games_are_read;
pub use texts::games_text;
