//! What is known of a position and a side, kept so that it is true, and the place that keeps it.
//!
//! `line` has lines of at most 64 moves, `kept_line` those that are kept, `fact` what may be known, `key` the name under which it is found, `proved` what is known
//! and true, `calls` what a place that keeps facts is asked and answers, and `facts` such a place.
#![tactic(auto)]

mod calls;
mod fact;
mod facts;
mod kept_line;
mod key;
mod line;
mod proved;

pub use calls::{FactCall, FactReply, Probe, Stored};
pub use fact::Fact;
pub use facts::{Facts, searched_stays};
pub use kept_line::KeptLine;
pub use key::{Key, keys_tell_positions};
pub use line::Line;
pub use proved::Proved;
