//! Mobility sets: the squares that each man of a position may ever reach, kept as rows.
//!
//! `rows` has the row of an origin and a kind, `tidy_rows` where rows stand among each other, `sets` the sets, and
//! `one_spelling` the law that sets that show the same have the same rows.
#![tactic(auto)]

mod one_spelling;
mod rows;
mod sets;
mod tidy_rows;

pub use one_spelling::sets_tell_rows;
pub use rows::{SetRow, place};
pub use sets::Sets;
