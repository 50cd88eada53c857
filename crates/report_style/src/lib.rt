//! The styles in which a report is printed, as values: the words of the command order one, and `flag_report` prints in it.
//!
//! `styles` has them, and which one the options ask for.
#![tactic(auto)]

mod styles;

pub use styles::{Asked, BlockForm, Extras, Notation, Style};
