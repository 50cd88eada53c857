//! What a worker leaves of a round.

ghost use Rattle.std.specs.Prelude.{◌≡◌, [], None, false};

use cha_fact::Line;
use shard_table::TablePass;
use std::alloc::Global;

/// A root move after which a mate was found.
#[derive(Drop)]
pub struct RootMate {
    /// The number of the move among the root's legal moves, from 0.
    pub root_move: u32,
    /// The mate of the position after the move.
    pub line: Line,
}

/// What a worker leaves of one round.
#[derive(Drop)]
pub struct Work {
    /// The numbers of its root moves after which there is no mate, each once.
    pub cleared: Vec<u32>,
    /// The mate with which its part of the round ended.
    pub mate: Option<RootMate>,
    /// Whether its part of the round ended since its allowance was spent.
    pub spent: bool,
    /// Whether its part of the round ended for want of memory.
    pub refused: bool,
}

/// A worker of a crew: its number, from 0, the pass with which it takes its turns at the table, and what it left of the last
/// round.
#[derive(Drop)]
pub struct Worker {
    pub number: u32,
    pub pass: TablePass,
    pub work: Work,
}

impl RootMate {
    /// A copy of it.
    pub fn copy(&self) -> RootMate
        ensures { result ≡ self.now }
    {
        RootMate {
            root_move: self.root_move,
            line: self.line.copy(),
        }
    }
}

impl Work {
    /// Nothing was done yet. It takes no memory.
    pub fn new(alloc: Global) -> Work
        ensures nothing { (result.cleared.items ≡ []) × (result.mate ≡ None) × (result.spent ≡ false) × (result.refused ≡ false) }
    {
        Work {
            cleared: Vec::new(alloc),
            mate: None,
            spent: false,
            refused: false,
        }
    }
}
