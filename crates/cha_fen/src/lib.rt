//! FEN, the text of a position on one line (PGN standard, 16.1): read and written.
//!
//! `faults` says why a text is refused, `fields` cuts a text into fields, `placement` reads the men of the first field,
//! `details` the fields behind it, `reader` the whole, and `written` writes it.
#![tactic(auto)]

mod details;
mod faults;
mod fields;
mod placement;
mod reader;
mod written;

pub use faults::FenFault;
pub use reader::read;
pub use written::{write, written_is_read};
