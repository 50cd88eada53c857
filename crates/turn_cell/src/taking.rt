//! One turn, step by step.

ghost use Rattle.std.specs.Prelude.{◌≡◌, ◌∷◌, [], Some, None, true, MatchBool};
ghost use Rattle.turn_cell.specs.Histories.{IsLegalHistory};
ghost use Rattle.turn_cell.specs.Passes.{known_in, Turned};
ghost use Rattle.turn_cell.specs.RuleSteps.{HasTurn};
ghost use Rattle.turn_cell.specs.Views.{after_call, IsIdle};

use crate::object::Object;
use crate::rule::{CellSeat, CellShared, Serving, Taking};
use crate::views::{Held, Said};
use std::snapshot::Snapshot;
use std::sync::Wait;

// How often a pass looks at the word before it sleeps, some fifty microseconds in all: most turns are over sooner, and to sleep and
// be woken takes longer than many turns.
const LOOKS: u32 = 40_000;

// Takes the slot where it is at home.
fn take<V: Object>(
    shared: &CellShared<V, V::Call, V::Reply>,
    seat: &mut CellSeat<V, V::Call, V::Reply>,
) -> bool
    requires table { (seat.old.table_id ≡ shared.now.table_id) × (shared.now.table_id.words ≡ 1) }
    requires lives { seat.old.me.0.origin ≡ Some shared.now.key }
    requires empty { seat.old.me.1 ≡ [] }
    ensures table { seat.new.table_id ≡ seat.old.table_id }
    ensures turn { MatchBool result (HasTurn V.step seat.old.me.0 seat.new.me) (seat.new.me ≡ seat.old.me) }
{
    shared.compare_exchange::<Taking<V>>(seat, 0, 0, 1) == 0
}

// The same, and where the slot is out the word then says that a pass may sleep. Where the slot was at home the word says so
// too, and who gives it back wakes one pass too many, never one too few.
fn take_or_mark<V: Object>(
    shared: &CellShared<V, V::Call, V::Reply>,
    seat: &mut CellSeat<V, V::Call, V::Reply>,
) -> bool
    requires table { (seat.old.table_id ≡ shared.now.table_id) × (shared.now.table_id.words ≡ 1) }
    requires lives { seat.old.me.0.origin ≡ Some shared.now.key }
    requires empty { seat.old.me.1 ≡ [] }
    ensures table { seat.new.table_id ≡ seat.old.table_id }
    ensures turn { MatchBool result (HasTurn V.step seat.old.me.0 seat.new.me) (seat.new.me ≡ seat.old.me) }
{
    shared.swap::<Taking<V>>(seat, 0, 2) == 0
}

// Looks at the word for a while, and takes the slot where it comes home meanwhile.
fn take_soon<V: Object>(
    shared: &CellShared<V, V::Call, V::Reply>,
    seat: &mut CellSeat<V, V::Call, V::Reply>,
) -> bool
    requires table { (seat.old.table_id ≡ shared.now.table_id) × (shared.now.table_id.words ≡ 1) }
    requires lives { seat.old.me.0.origin ≡ Some shared.now.key }
    requires empty { seat.old.me.1 ≡ [] }
    ensures table { seat.new.table_id ≡ seat.old.table_id }
    ensures turn { MatchBool result (HasTurn V.step seat.old.me.0 seat.new.me) (seat.new.me ≡ seat.old.me) }
{
    for _ in 0..LOOKS {
        if shared.peek(0) == 0 && take(shared, seat) {
            return true;
        }
    }
    false
}

// Waits until the slot is at home, and takes it. It sleeps where that takes long, so that other threads get on.
fn wait_turn<V: Object, R: Wait>(
    rt: &R,
    shared: &CellShared<V, V::Call, V::Reply>,
    seat: &mut CellSeat<V, V::Call, V::Reply>,
)
    requires table { (seat.old.table_id ≡ shared.now.table_id) × (shared.now.table_id.words ≡ 1) }
    requires lives { seat.old.me.0.origin ≡ Some shared.now.key }
    requires empty { seat.old.me.1 ≡ [] }
    ensures table { seat.new.table_id ≡ seat.old.table_id }
    ensures turn { HasTurn V.step seat.old.me.0 seat.new.me }
{
    if take_soon(shared, seat) {
        return;
    }
    for _ in rt.forever() {
        if take_or_mark(shared, seat) {
            return;
        }
        shared.park(rt, 0, 2);
    }
    unreachable!()
}

// Wakes one pass where the word said that there may be one that sleeps.
fn wake<V: Object>(shared: &CellShared<V, V::Call, V::Reply>, found: u64)
    requires { shared.now.table_id.words ≡ 1 }
{
    if found == 2 {
        shared.wake_one(0);
    }
}

// Makes a call at the value that was taken out of the slot, puts the value back, and gives the slot back.
fn serve<V: Object>(
    shared: &CellShared<V, V::Call, V::Reply>,
    seat: &mut CellSeat<V, V::Call, V::Reply>,
    mut value: V,
    call: V::Call,
) -> V::Reply
    requires table { (seat.old.table_id ≡ shared.now.table_id) × (shared.now.table_id.words ≡ 1) }
    requires lives { seat.old.me.0.origin ≡ Some shared.now.key }
    requires turn { seat.old.me.0.has_turn ≡ true }
    requires out { (held : _) × (seat.old.me.1 ≡ (0, held) ∷ []) × (held.value ≡ None) }
    requires value { IsLegalHistory V.step shared.now.key.value seat.old.me.0.seen value }
    ensures table { seat.new.table_id ≡ seat.old.table_id }
    ensures entry { seat.new.me ≡ (after_call seat.old.me.0 call result, []) }
    ensures legal { (last : V) × IsLegalHistory V.step shared.now.key.value (after_call seat.old.me.0 call result).seen last }
{
    let asked = Snapshot::of(&call);
    let reply = value.apply(call);
    let answered = Snapshot::of(&reply);
    let held = Held {
        value: Some(value),
        said: Some(Said {
            call: asked,
            reply: answered,
        }),
    };
    let old = shared.exchange(seat, 0, held);
    let nothing = old.into_value();
    let None = nothing else { unreachable!() };
    let found = shared.swap::<Serving>(seat, 0, 0);
    wake(shared, found);
    reply
}

/// Makes one call at the value of a cell. It may wait for other turns to end.
pub(crate) fn take_turn<V: Object, R: Wait>(
    rt: &R,
    shared: &CellShared<V, V::Call, V::Reply>,
    seat: &mut CellSeat<V, V::Call, V::Reply>,
    call: V::Call,
) -> V::Reply
    requires table { (seat.old.table_id ≡ shared.now.table_id) × (shared.now.table_id.words ≡ 1) }
    requires lives { seat.old.me.0.origin ≡ Some shared.now.key }
    requires idle { IsIdle seat.old.me }
    ensures table { seat.new.table_id ≡ seat.old.table_id }
    ensures lives { seat.new.me.0.origin ≡ Some shared.now.key }
    ensures turned { Turned V.step shared.now.key.value (known_in seat.old.me.0) call result (known_in seat.new.me.0) }
    ensures idle { IsIdle seat.new.me }
{
    wait_turn(rt, shared, seat);
    let taken = shared.exchange(
        seat,
        0,
        Held {
            value: None,
            said: None,
        },
    );
    let value = taken.into_value();
    let Some(value) = value else { unreachable!() };
    serve(shared, seat, value, call)
}
