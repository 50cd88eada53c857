//! SAN, the text of a move, and the positions of a game (PGN standard, 8.2.3).
//!
//! `faults` says why a word names no move. A word is read from its end: `backwards` has its last byte and what is in front,
//! `letters` what bytes mean, `reading` what a word says, kept as `forms` has it, and `order` the law of the parts of a word. `fitting` has the moves that fit,
//! `sources` the squares between which they go, `found` how many there are, `resolving` the one that a word names, `writing` the word of
//! a move, `playing` the positions of a game, `games` the law of these, and `named_moves` the moves that words name.
#![tactic(auto)]

mod backwards;
mod faults;
mod fitting;
mod forms;
mod found;
mod games;
mod letters;
mod named_moves;
mod order;
mod playing;
mod reading;
mod resolving;
mod sources;
mod writing;

pub use faults::{PlayFault, SanFault};
pub use fitting::castles;
pub use games::games_are_played;
pub use named_moves::moves_of;
pub use order::parts_stand_in_order;
pub use playing::play;
pub use resolving::resolve;
pub use writing::{put_castling, put_kind, put_promotion, san, written_moves_are_named};
