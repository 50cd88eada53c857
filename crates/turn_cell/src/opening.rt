//! A new cell.

ghost use Rattle.std.specs.Prelude.{◌≡◌, [], Some, IfOk, IfErr};
ghost use Rattle.turn_cell.specs.Views.{first_view};

use crate::object::Object;
use crate::rule::{CellSeat, CellTable};
use crate::views::Held;
use atomic_table::{Refused, Table};
use cha_list::NoMemory;
use std::alloc::Global;
use std::snapshot::Snapshot;

/// The value in a slot.
pub(crate) fn value_of<V: Object>(held: Held<V, V::Call, V::Reply>) -> V
    requires { (v : V) × (held.value ≡ Some v) }
    ensures { held.value ≡ Some result }
{
    let value = held.into_value();
    let Some(value) = value else { unreachable!() };
    value
}

/// A cell with no history, and the seat of its first pass. Where memory is refused, the value comes back.
pub(crate) fn open<V: Object>(
    alloc: Global,
    value: V,
) -> Result<
    (
        CellTable<V, V::Call, V::Reply>,
        CellSeat<V, V::Call, V::Reply>,
    ),
    (V, NoMemory),
>
    ensures table { IfOk result (λ t. (t.1.table_id ≡ t.0.shared.table_id) × (t.0.shared.table_id.words ≡ 1) × (t.0.shared.table_id.slots ≡ 1)) }
    ensures key { IfOk result (λ t. t.0.shared.key.value ≡ value) }
    ensures seat { IfOk result (λ t. t.1.me ≡ (first_view t.0.shared.key, [])) }
    ensures value_returned { IfErr result (λ refused. refused.0 ≡ value) }
{
    let key = Snapshot::of(&value);
    let mut slots = Vec::new(alloc);
    match slots.push(Held {
        value: Some(value),
        said: None,
    }) {
        Ok(()) => {}
        Err(failed) => {
            slots.destroy_empty();
            return Err((value_of(failed.value), NoMemory));
        }
    }
    match Table::new(alloc, &[0], slots, &key) {
        Ok(both) => Ok(both),
        Err(refused) => {
            let Refused { mut slots } = refused;
            let Some(held) = slots.pop() else {
                unreachable!()
            };
            slots.destroy_empty();
            Err((value_of(held), NoMemory))
        }
    }
}
