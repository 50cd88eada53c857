//! A cell, and the passes of it.

ghost use Rattle.std.specs.Prelude.{◌≡◌, ◌≤◌, Some};
ghost use Rattle.turn_cell.specs.Histories.{IsWellKnown};
ghost use Rattle.turn_cell.specs.Views.{IsIdle};

use crate::object::Object;
use crate::rule::{CellSeat, CellTable};

/// A value at which passes take turns.
pub struct TurnCell<V: Object> {
    pub(crate) table: CellTable<V, V::Call, V::Reply>,
    ghost sizes: { (table.shared.table_id.words ≡ 1) × (table.shared.table_id.slots ≡ 1) },
}

/// The right to take turns at one cell. It can move to another thread where the value can.
///
/// Contracts see of it a number, `seen`, the part of the cell's history that it knows, and `mine`, its own entries there.
/// None of the three takes memory. What it has seen is one legal history from the cell's first value, at any time.
pub struct Pass<V: Object> {
    pub(crate) seat: CellSeat<V, V::Call, V::Reply>,
    pub(crate) splits: u32,
    pub(crate) joins: u32,
    ghost idle: { IsIdle seat.me },
    ghost counts: { (seat.me.0.splits ≡ splits) × (seat.me.0.joins ≡ joins) },
    ghost fewer: { (joins ≤ splits) × (splits ≤ 1000) },
    ghost knows: { (o : _) → seat.me.0.origin ≡ Some o → IsWellKnown V.step o.value seat.me.0.number seat.me.0.seen seat.me.0.mine },
}

/// A cell that is not closed, since other passes of it are still out.
#[derive(Drop)]
pub struct Still<V: Object> {
    /// The cell, unchanged.
    pub cell: TurnCell<V>,
    /// The pass that was to close it, unchanged.
    pub pass: Pass<V>,
    /// How many passes of the cell there are, this one among them: at least 2.
    pub passes: u32,
}

impl<V: Object> Drop for Pass<V> {
    fn drop(self) {
        let Pass {
            seat: _,
            splits: _,
            joins: _,
        } = self;
    }
}

impl<V: Object + Drop> Drop for TurnCell<V> {
    fn drop(self) {
        let TurnCell { table: _ } = self;
    }
}

impl<V: Object> Pass<V> {
    pub(crate) fn into_seat(self) -> CellSeat<V, V::Call, V::Reply>
        ensures { result ≡ self.seat }
    {
        let Pass {
            seat,
            splits: _,
            joins: _,
        } = self;
        seat
    }
}

impl<V: Object> TurnCell<V> {
    pub(crate) fn into_table(self) -> CellTable<V, V::Call, V::Reply>
        ensures { result ≡ self.table }
    {
        let TurnCell { table } = self;
        table
    }
}
