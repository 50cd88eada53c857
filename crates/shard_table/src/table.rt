//! Eight shards in turn cells, and a pass of each.

ghost use Rattle.std.specs.Prelude.{◌≡◌, ℕ, slice_get, Some, length};
ghost use Rattle.turn_cell.specs.Passes.{start};
ghost use Rattle.shard_table.specs.Shards.{empty};
ghost use Rattle.shard_table.specs.Eights.{list_of};

use crate::eight::Eight;
use crate::shard::Shard;
use turn_cell::{Pass, TurnCell};

/// Eight shards at which threads take turns. Each key has its place in one of them.
#[derive(Drop)]
pub struct Table {
    pub(crate) cells: [TurnCell<Shard>; 8],
    pub(crate) entries: u32,
    ghost eight: { length cells ≡ 8 },
    ghost starts: { (k : ℕ) (cell : _) → slice_get cells k ≡ Some cell → start cell ≡ empty entries },
}

/// The right to take turns at a table: a pass of each shard. It can move to another thread.
///
/// Contracts see of each of the eight passes its number, the part of the shard's history that it knows, its own entries there,
/// and how many passes were split off it and taken back.
#[derive(Drop)]
pub struct TablePass {
    pub(crate) passes: [Pass<Shard>; 8],
    ghost eight: { length passes ≡ 8 },
}

/// A table that is not closed, since other passes of it are still out.
#[derive(Drop)]
pub struct StillOut {
    /// The table, unchanged.
    pub table: Table,
    /// The pass that was to close it, unchanged.
    pub pass: TablePass,
    /// How many passes of the table there are, this one among them: at least 2.
    pub passes: u32,
}

impl Table {
    /// How many rows each shard may have.
    pub fn entries(&self) -> u32
        ensures { result ≡ self.now.entries }
    {
        self.entries
    }

    pub(crate) fn into_cells(self) -> Eight<TurnCell<Shard>>
        ensures { self.cells ≡ list_of result }
    {
        let Table { cells, entries: _ } = self;
        Eight::of(cells)
    }
}

impl TablePass {
    pub(crate) fn into_passes(self) -> Eight<Pass<Shard>>
        ensures { self.passes ≡ list_of result }
    {
        let TablePass { passes } = self;
        Eight::of(passes)
    }
}
