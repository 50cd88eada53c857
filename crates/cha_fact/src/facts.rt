//! A place that keeps facts.

ghost use Rattle.std.specs.Prelude.{ℕ, List, [], ◌∷◌, ◌++◌};
ghost use Rattle.cha_board.specs.declared.men.Color.{Color as Side};
ghost use Rattle.cha_board.specs.Board.{Board};
ghost use Rattle.cha_fact.specs.Entries.{Entry, probe_entry, store_entry, IsOfKey, IsSearched};

use crate::calls::{Probe, Stored};
use crate::key::Key;
use crate::proved::Proved;

/// A place that keeps facts: a list of one's own, or a turn at a table that others use too, for which a call may wait.
///
/// Contracts see which entries, calls with their replies, were made through a value from one state of it to a later one.
/// What a place answers is true, since nothing else can be made, and what is found is of the key that was asked for; what
/// it keeps of what it is given is its own matter.
pub trait Facts {
    /// Calls may be made.
    ghost ready: { Self → Type 0 };

    /// From one state to a later one just these entries were made through this value, in this order.
    ghost made: { Self → List Entry → Self → Type 0 };

    /// Asks what is known under a key.
    fn probe(&mut self, key: &Key) -> Probe
        requires { ready self.old }
        ensures stays_ready { ready self.new }
        ensures entered { made self.old (probe_entry key.now result ∷ []) self.new }
        ensures of_key { IsOfKey key.now result };

    /// Gives something to keep.
    fn store(&mut self, row: Proved) -> Stored
        requires { ready self.old }
        ensures stays_ready { ready self.new }
        ensures entered { made self.old (store_entry row result ∷ []) self.new };

    /// Where nothing is done, no entry is made.
    ghost none_made: { (s : Self) → made s [] s };

    /// The entries of two times, one after the other, are the entries of both.
    ghost both_made: { (a b c : Self) (xs ys : List Entry) → made a xs b → made b ys c → made a (xs ++ ys) c };
}

/// The law: a position that was searched stays so among more entries.
pub fn searched_stays()
    ensures { (before entries behind : List Entry) (q : Board) (winner : Side) (depth : ℕ) → IsSearched entries q winner depth → IsSearched (before ++ entries ++ behind) q winner depth }
{}
