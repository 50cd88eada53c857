//! How the next name is taken from those that wait.

ghost use Rattle.std.specs.Prelude.{◌≡◌, ◌+◌, ◌<◌, ℕ, false, Some, length, slice_get, IfSome, IfNone};
ghost use Rattle.node_store.specs.NameLists.{list_at, Has, first_name, without_first};
ghost use Rattle.node_store.specs.Nodes.{leaves};

use crate::store::Store;
use cha_list::Steps;
use std::marker::Brand;
use std::sync::ledger::{Blank, Ledger};

impl Store {
    /// Takes the name that was added last of the first list that has one. `None` where none waits.
    pub fn pop(&mut self) -> Option<u32>
        ensures name { result ≡ first_name self.old.waiting }
        ensures waiting { self.new.waiting ≡ without_first self.old.waiting }
        ensures nodes { self.new.nodes ≡ self.old.nodes }
        ensures spare { self.new.spare ≡ self.old.spare }
        ensures within { IfSome result (λ name. name < length self.new.nodes) }
        ensures inner { IfSome result (λ name. slice_get (leaves self.new.nodes) name ≡ Some false) }
        ensures waited { IfSome result (λ name. (b : ℕ) → Has (list_at self.new.waiting b) name → ⊥) }
    {
        self.pop_from::<Brand>(Blank::new(1))
    }

    // The same, with a count of its own.
    fn pop_from<L: Ledger>(&mut self, blank: Blank) -> Option<u32>
        requires ledger { (L.parts ≡ blank.parts) × (L.name ≡ blank.name) × (0 < blank.parts) }
        ensures name { result ≡ first_name self.old.waiting }
        ensures waiting { self.new.waiting ≡ without_first self.old.waiting }
        ensures nodes { self.new.nodes ≡ self.old.nodes }
        ensures spare { self.new.spare ≡ self.old.spare }
        ensures within { IfSome result (λ name. name < length self.new.nodes) }
        ensures inner { IfSome result (λ name. slice_get (leaves self.new.nodes) name ≡ Some false) }
        ensures waited { IfSome result (λ name. (b : ℕ) → Has (list_at self.new.waiting b) name → ⊥) }
    {
        let (book, share) = blank.open::<L>();
        let mut steps = Steps::opened(book, share);
        self.pop_counted(&mut steps)
    }

    /// What `pop` does, with the steps counted: the front of each list up to the one that has a name, and the name taken.
    pub fn pop_counted<L: Ledger>(&mut self, steps: &mut Steps<L>) -> Option<u32>
        ensures name { result ≡ first_name self.old.waiting }
        ensures waiting { self.new.waiting ≡ without_first self.old.waiting }
        ensures nodes { self.new.nodes ≡ self.old.nodes }
        ensures spare { self.new.spare ≡ self.old.spare }
        ensures within { IfSome result (λ name. name < length self.new.nodes) }
        ensures inner { IfSome result (λ name. slice_get (leaves self.new.nodes) name ≡ Some false) }
        ensures waited { IfSome result (λ name. (b : ℕ) → Has (list_at self.new.waiting b) name → ⊥) }
        ensures cost { IfSome result (λ name. (b : ℕ) → Has (list_at self.old.waiting b) name → steps.new ≡ steps.old + b + 2) }
        ensures whole_cost { IfNone result (steps.new ≡ steps.old + 64) }
    {
        match self.waiting.first_used(steps) {
            None => None,
            Some(bucket) => self.waiting.unlink(bucket, steps),
        }
    }
}
