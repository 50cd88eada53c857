//! What passes take turns at, and what is said of one call, and of a pass that was taken back.

use std::collections::LinkedList;

/// A value that changes by calls.
///
/// `step` says which replies and which new values a call may have: of the value before, the call, the reply and the value
/// after.
pub trait Object {
    /// What it can be asked.
    type Call;

    /// What it answers.
    type Reply;

    /// What one call may do.
    ghost step: { Self → Self.Call → Self.Reply → Self → Type 0 };

    /// Makes one call.
    fn apply(&mut self, call: Self::Call) -> Self::Reply
        ensures { step self.old call result self.new };
}

/// One call with its reply, and the number of the pass that made it. Contracts list such entries; no value of it is made.
pub struct Entry<C, R> {
    /// The number of the pass.
    pub number: u64,
    /// What it asked.
    pub call: C,
    /// What it was answered.
    pub reply: R,
}

/// A pass that was taken back: its number, and the entries of its calls. Contracts list them; no value of it is made.
pub struct TakenBack<C, R> {
    /// The number of the pass.
    pub number: u64,
    /// The entries of its calls.
    pub mine: LinkedList<Entry<C, R>>,
}
