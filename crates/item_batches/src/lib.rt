//! The items of an input, one at a time, and the work that others do on them before they are given.
//!
//! `readers` has the items of an input as they are cut from its bytes, `kept` those of games whose results may be corrected, `queue` what was
//! cut and who works on it, `coming` when more is read, and `batches` the queue as a caller sees it: the work on one item after the other, in
//! order.
#![tactic(auto)]

mod batches;
mod coming;
mod kept;
mod queue;
mod readers;

pub use batches::Batches;
