//! Words that styles of a report share: why an item cannot be read, the status of a position, and what is counted.
#![tactic(auto)]

mod columns;
mod counts;
mod reasons;
mod words;

pub use columns::Column;
pub use counts::put_count;
pub use reasons::{put_fen_fault, put_reason};
pub use words::put_status;
