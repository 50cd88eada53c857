//! Material with which a side cannot mate, whatever squares its men go to.
//!
//! `reasons` has why the men alone show it, each a `Reason`, and the law that where one of them holds, no series of legal moves
//! mates. The other modules have what each asks: the men that stand beside the kings, and whether a side cannot mate with them.
#![tactic(auto)]

mod beside;
mod lone_men;
mod mate_free_kinds;
mod one_color;
mod reasons;
mod verdict;

pub use lone_men::lone_verdict;
pub use mate_free_kinds::mate_free;
pub use reasons::{Reason, reason_bound};
pub use verdict::small_verdict;
