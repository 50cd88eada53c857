//! What a search may spend.

ghost use Rattle.std.specs.Prelude.{◌≡◌, ◌≤◌};
ghost use Rattle.cha_limits.specs.Bounds.{AreInRange};

use std::marker::Model;

/// What a search may spend on a side, seen by contracts as its four numbers, each of which lies in its range (this project).
///
/// | Number | From | To |
/// |---|---|---|
/// | positions expanded for a side | 1 | 100,000 |
/// | plies of the rounds | 2 | 8 |
/// | workers | 1 | 16 |
/// | rows of each shard of the table of facts | 1 | 65,536 |
#[derive(Clone, Copy, Debug, PartialEq, Eq)]
pub struct Limits {
    budget: u32,
    depth: u8,
    workers: u32,
    entries: u32,
}

impl Model for Limits {
    ghost use Rattle.cha_limits.specs.Bounds.{Bounds, AreInRange};

    ghost Value = { Bounds };

    ghost view = { λ l. record { budget = l.budget; depth = l.depth; workers = l.workers; entries = l.entries } };

    ghost invariant = { λ l. AreInRange (record { budget = l.budget; depth = l.depth; workers = l.workers; entries = l.entries }) };

    ghost inverse = { λ b. record { budget = b.budget; depth = b.depth; workers = b.workers; entries = b.entries } };
}

impl Limits {
    /// The limits of four numbers, each in its range.
    pub fn new(budget: u32, depth: u8, workers: u32, entries: u32) -> Limits
        requires { AreInRange (record { budget = budget; depth = depth; workers = workers; entries = entries }) }
        ensures { result ≡ record { budget = budget; depth = depth; workers = workers; entries = entries } }
    {
        Limits {
            budget,
            depth,
            workers,
            entries,
        }
    }

    /// How many positions are expanded for a side at most, from 1 to 100,000.
    pub fn budget(&self) -> u32
        ensures value { result ≡ self.now.budget }
        ensures range { (1 ≤ result) × (result ≤ 100000) }
    {
        self.budget
    }

    /// To how many plies a side is searched in rounds, from 2 to 8.
    pub fn depth(&self) -> u8
        ensures value { result ≡ self.now.depth }
        ensures range { (2 ≤ result) × (result ≤ 8) }
    {
        self.depth
    }

    /// How many workers judge items side by side, and share the search of a round, from 1 to 16.
    pub fn workers(&self) -> u32
        ensures value { result ≡ self.now.workers }
        ensures range { (1 ≤ result) × (result ≤ 16) }
    {
        self.workers
    }

    /// How many rows each shard of the table of facts has at most, from 1 to 65,536.
    pub fn entries(&self) -> u32
        ensures value { result ≡ self.now.entries }
        ensures range { (1 ≤ result) × (result ≤ 65536) }
    {
        self.entries
    }
}
