//! A table with a pass of it, as a place that keeps facts.

ghost use Rattle.std.specs.Prelude.{◌≡◌};

use crate::table::{Table, TablePass};
use cha_fact::{Facts, Key, Probe, Proved, Stored};
use std::sync::Wait;

/// A table with a pass of it, as a place that keeps facts: each call is a turn at the shard of its key, and may wait for
/// others. The entries are the pass's own.
#[derive(Drop)]
pub struct TableFacts<'a, R: Wait> {
    rt: &'a R,
    table: &'a Table,
    pass: &'a mut TablePass,
}

impl<'a, R: Wait> TableFacts<'a, R> {
    /// A place of facts whose calls are turns of this pass; the pass keeps them in its history.
    pub fn new(rt: &'a R, table: &'a Table, pass: &'a mut TablePass) -> TableFacts<'a, R>
        ensures same_pass { result.pass.ghost_name ≡ pass.entry.ghost_name }
        ensures state { result.pass.now ≡ pass.old }
        ensures table { result.table.now ≡ table.now }
    {
        TableFacts { rt, table, pass }
    }
}

impl<'a, R: Wait> Facts for TableFacts<'a, R> {
    ghost use Rattle.std.specs.Prelude.{refl};
    ghost use Rattle.std.proofs.Common.{◌∙◌};
    ghost use Rattle.shard_table.specs.Tables.{IsOfTable};
    ghost use Rattle.shard_table.specs.Makes.{Makes};
    ghost use Rattle.shard_table.specs.Making.{makes_none, makes_both};

    ghost ready = { λ s. IsOfTable s.table.now s.pass.now };

    ghost made = { λ old entries new. (new.table.now ≡ old.table.now) × (new.pass.ghost_name ≡ old.pass.ghost_name) × Makes old.pass.now entries new.pass.now };

    ghost none_made = { λ s. (refl, refl, makes_none s.pass.now) };

    ghost both_made = { λ a b c xs ys one two. (two.0 ∙ one.0, two.1 ∙ one.1, makes_both a.pass.now b.pass.now c.pass.now xs ys one.2 two.2) };

    fn probe(&mut self, key: &Key) -> Probe {
        self.table.probe(self.rt, self.pass, key)
    }

    fn store(&mut self, row: Proved) -> Stored {
        self.table.store(self.rt, self.pass, row)
    }
}
