//! The games of a text in PGN, of any bytes whatever, one at a time.
//!
//! `played`, `marks` and `faults` have the game that is given, `reading` the reader, and `splitting` the splitter of pieces; `token_turns`
//! says what a token does to a game, and `cutter` keeps what a reader needs of its source, over `filling`, which reads it in pieces, and
//! `gathering`, which moves tokens to their game. `summary` keeps what the tokens of one game say, by `tag_pairs` and `movetext`, and
//! tells contracts which tokens they were. `whole` has the law that no token is lost, `settling` that of the games that are
//! known before the rest, `order` that of their order, `opening` that of the opening position, and `joining` that of closed texts.
#![tactic(auto)]

mod cutter;
mod faults;
mod filling;
mod gathering;
mod joining;
mod marks;
mod movetext;
mod opening;
mod order;
mod played;
mod reading;
mod settling;
mod splitting;
mod summary;
mod tag_pairs;
mod token_turns;
mod whole;

pub use cha_outside::ReadEnd;
pub use faults::GameFault;
pub use filling::{Filled, MOST_TAKEN, fill};
pub use joining::closed_texts_join;
pub use marks::{ResultMark, put_mark};
pub use opening::games_begin_at_the_opening;
pub use order::placed_games_stand_in_order;
pub use played::{Game, PlacedGame, Span, Words};
pub use reading::Reader;
pub use settling::{a_settled_game_has_a_byte_behind, settled_games_are_the_first};
pub use splitting::Splitter;
pub use token_turns::{deeper, mark};
pub use whole::each_token_is_in_one_game;
