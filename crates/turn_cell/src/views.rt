//! What the rule of a cell knows of each pass, and what the slot of a cell holds.

ghost use Rattle.std.specs.Prelude.{◌≡◌};

use crate::object::{Entry, TakenBack};
use std::collections::LinkedList;
use std::snapshot::Snapshot;

/// What is known of a pass. No value of it is made.
///
/// The field `joined_shorter` is set from a join to the look at the word that ends it: a join tells its caller no more than
/// what both views said, and that look then tells how they fit the one history.
pub(crate) struct View<V, C, R> {
    /// The first value of the cell. There is none once the pass was taken back.
    pub(crate) origin: Option<Snapshot<V>>,
    /// The number of the pass.
    pub(crate) number: u64,
    /// How many passes were split off this one.
    pub(crate) splits: u64,
    /// How many of them it took back.
    pub(crate) joins: u64,
    /// The pass has the turn, and the slot.
    pub(crate) has_turn: bool,
    /// The part of the history that the pass has seen.
    pub(crate) seen: LinkedList<Entry<C, R>>,
    /// The entries of its own calls.
    pub(crate) mine: LinkedList<Entry<C, R>>,
    /// The shorter of the two lists that were joined.
    pub(crate) joined_shorter: LinkedList<Entry<C, R>>,
    /// The passes that it took back, the last one first.
    pub(crate) taken: LinkedList<TakenBack<C, R>>,
}

/// A call and its reply, for clauses alone.
pub(crate) struct Said<C, R> {
    pub(crate) call: Snapshot<C>,
    pub(crate) reply: Snapshot<R>,
}

impl<C, R> Drop for Said<C, R> {
    fn drop(self) {
        let Said { call: _, reply: _ } = self;
    }
}

/// What the slot of a cell holds: the value, and for clauses the last call with its reply. The value is missing only while
/// the call is made.
pub(crate) struct Held<V, C, R> {
    pub(crate) value: Option<V>,
    pub(crate) said: Option<Said<C, R>>,
}

impl<V: Drop, C, R> Drop for Held<V, C, R> {
    fn drop(self) {
        let Held { value: _, said: _ } = self;
    }
}

impl<V, C, R> Held<V, C, R> {
    /// The value.
    pub(crate) fn into_value(self) -> Option<V>
        ensures { result ≡ self.value }
    {
        let Held { value, said: _ } = self;
        value
    }
}
