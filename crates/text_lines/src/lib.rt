//! The lines of a text, of any bytes whatever, one at a time.
//!
//! `lines` has the line that is given, and `reading` the reader, over `pieces`, what it keeps of its source; `history` tells contracts which
//! bytes are gone.
#![tactic(auto)]

mod history;
mod lines;
mod pieces;
mod reading;

pub use cha_outside::ReadEnd;
pub use lines::TextLine;
pub use reading::LineReader;
