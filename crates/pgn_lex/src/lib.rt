//! The tokens of a text of chess games in PGN, of any bytes whatever.
//!
//! `classes` has the bytes that PGN names, `kinds` the tokens, `reading` goes from piece to piece, `piece_rules` is the
//! table of what begins a piece, `lines` counts line feeds, and `comments`, `word_tokens`, `tags` and `tag_values` have one function for each
//! rule; `pieces` has what these give, `spelling` the bytes of a word, and `order` the law of the places of tokens.
//!
//! `machine` is the lexer that takes single bytes, over `stages`, what each byte does, and `saying`, the tokens of pieces that
//! ended; `history` tells contracts what was fed or came, and `settling` has the law of the tokens that are known before the rest.
#![tactic(auto)]

mod classes;
mod comments;
mod history;
mod kinds;
mod lines;
mod machine;
mod order;
mod piece_rules;
mod pieces;
mod reading;
mod saying;
mod settling;
mod spelling;
mod stages;
mod tag_values;
mod tags;
mod word_tokens;

pub use classes::PgnClass;
pub use history::History;
pub use kinds::{Placed, Token};
pub use machine::Lexer;
pub use order::tokens_stand_in_order;
pub use reading::tokens_of;
pub use settling::settled_tokens_are_the_first;
pub use spelling::Spelling;
