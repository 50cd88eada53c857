//! What a place that keeps facts is asked, and what it answers.

use crate::key::Key;
use crate::proved::Proved;

/// The answer of a place of facts that is asked for a key.
#[derive(Drop)]
pub enum Probe {
    /// What is known under that key.
    Found(Proved),
    /// Nothing is known under it.
    Miss,
    /// A mate is known under that key, and memory for a copy of its line was refused.
    Refused,
}

/// The answer of a place of facts that is given a fact to keep.
#[derive(Clone, Copy, Debug, PartialEq, Eq)]
pub enum Stored {
    /// Nothing was known under its key: it is kept.
    Added,
    /// Nothing was known under its key: it is kept, in place of what was known under the key that is named.
    Evicted(Key),
    /// It says more than what was known under its key: it is kept in its place.
    Better,
    /// It says no more than what is known under its key, which stays.
    Kept,
    /// For want of memory it is not kept.
    Dropped,
}

/// A call of a place that keeps facts, as a value.
#[derive(Drop)]
pub enum FactCall {
    Probe(Key),
    Store(Proved),
}

/// The reply to a call, as a value.
#[derive(Drop)]
pub enum FactReply {
    Probed(Probe),
    Stored(Stored),
}
