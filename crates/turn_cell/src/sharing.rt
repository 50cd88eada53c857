//! A pass split off, and a pass taken back.

ghost use Rattle.std.specs.Prelude.{◌≡◌, ◌<◌, ◌≤◌, ◌+◌, [], ◌∷◌, Some};
ghost use Rattle.turn_cell.specs.Histories.{entries_of, taken_back, AreTheirs};
ghost use Rattle.turn_cell.specs.Passes.{known_in, Joined};
ghost use Rattle.turn_cell.specs.Views.{after_split, split_view, IsIdle};

use crate::object::Object;
use crate::rule::{CellSeat, CellShared, Joining, Meeting, Splitting};

/// A new seat, which has seen what this one has.
pub(crate) fn split_off<V: Object>(
    shared: &CellShared<V, V::Call, V::Reply>,
    seat: &mut CellSeat<V, V::Call, V::Reply>,
) -> CellSeat<V, V::Call, V::Reply>
    requires table { (seat.old.table_id ≡ shared.now.table_id) × (shared.now.table_id.words ≡ 1) }
    requires lives { seat.old.me.0.origin ≡ Some shared.now.key }
    requires first { seat.old.me.0.number ≡ 0 }
    requires few { seat.old.me.0.splits < 1000 }
    ensures table { (seat.new.table_id ≡ seat.old.table_id) × (result.table_id ≡ seat.old.table_id) }
    ensures old { seat.new.me ≡ (after_split seat.old.me.0, seat.old.me.1) }
    ensures new { result.me ≡ (split_view seat.old.me.0, []) }
    ensures unused { entries_of (seat.old.me.0.splits + 1) seat.old.me.0.seen ≡ [] }
{
    let mut other = shared.split_seat::<Splitting>(seat);
    // This look tells that no call was made under the new number.
    shared.load::<Meeting>(&mut other, 0);
    other
}

/// Takes a seat back.
pub(crate) fn take_back<V: Object>(
    shared: &CellShared<V, V::Call, V::Reply>,
    seat: &mut CellSeat<V, V::Call, V::Reply>,
    other: CellSeat<V, V::Call, V::Reply>,
)
    requires table { (seat.old.table_id ≡ shared.now.table_id) × (other.table_id ≡ shared.now.table_id) × (shared.now.table_id.words ≡ 1) }
    requires lives { (seat.old.me.0.origin ≡ Some shared.now.key) × (other.me.0.origin ≡ Some shared.now.key) }
    requires first { seat.old.me.0.number ≡ 0 }
    requires idle { IsIdle seat.old.me × IsIdle other.me }
    ensures table { seat.new.table_id ≡ seat.old.table_id }
    ensures lives { seat.new.me.0.origin ≡ Some shared.now.key }
    ensures joined { Joined (known_in seat.old.me.0) (known_in other.me.0) (known_in seat.new.me.0) }
    ensures taken { seat.new.me.0.taken ≡ taken_back other.me.0.number other.me.0.mine ∷ seat.old.me.0.taken }
    ensures theirs { AreTheirs seat.new.me.0.taken seat.new.me.0.seen }
    ensures fewer { seat.new.me.0.joins ≤ seat.new.me.0.splits }
    ensures idle { IsIdle seat.new.me }
{
    shared.join_seat::<Joining>(seat, other);
    shared.load::<Meeting>(seat, 0);
}
