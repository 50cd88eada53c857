//! The rule of a cell, and the kinds of steps that passes take under it.
//!
//! A cell is a lock over a table of one word and one slot, which holds the value. The word is 0 while the slot is at home, 1
//! while it is out, and 2 while it is out and passes may sleep on the word. A pass that finds 0 as it writes another number
//! has the turn and the slot. It takes the value out, makes its call, puts the value back, and writes 0: at that step the
//! call joins the history, whose order is thus the order in which the slot was taken.

ghost use Rattle.turn_cell.specs.Rule.{TakesTurns};
ghost use Rattle.turn_cell.specs.Views.{first_view, spent_view, after_split, split_view, after_join};
ghost use Rattle.turn_cell.specs.RuleSteps.{Takes, Serves, Meets};

use crate::object::Object;
use crate::views::{Held, View};
use atomic_table::{Join, Play, Seat, Shared, Split, Table, TableRule};
use std::alloc::Global;
use std::marker::PhantomData;
use std::snapshot::Snapshot;

/// The rule of a cell whose value is a `V`.
pub(crate) struct CellRule<V> {
    object: PhantomData<V>,
}

impl<V: Object> TableRule<Held<V, V::Call, V::Reply>, View<V, V::Call, V::Reply>, Snapshot<V>>
    for CellRule<V> {
    ghost holds = { λ key state. TakesTurns V.step key.value state };

    ghost first = { λ key. first_view key };
}

/// The slot is taken where it is at home.
pub(crate) struct Taking<V> {
    object: PhantomData<V>,
}

impl<V: Object> Play<Held<V, V::Call, V::Reply>, View<V, V::Call, V::Reply>> for Taking<V> {
    ghost then = { Takes V.step };
}

/// The slot goes home, and the call that was made joins the history.
pub(crate) struct Serving;

impl<V, C, R> Play<Held<V, C, R>, View<V, C, R>> for Serving {
    ghost then = { Serves };
}

/// A pass is split off.
pub(crate) struct Splitting;

impl<V, C, R> Split<View<V, C, R>> for Splitting {
    ghost left = { after_split };

    ghost right = { split_view };
}

/// A pass is taken back.
pub(crate) struct Joining;

impl<V, C, R> Join<View<V, C, R>> for Joining {
    ghost both = { after_join };

    ghost spent = { spent_view };
}

/// The word is looked at after a join, which tells how the two passes fit one history.
pub(crate) struct Meeting;

impl<V, C, R> Play<Held<V, C, R>, View<V, C, R>> for Meeting {
    ghost then = { Meets };
}

/// The words and the slot of a cell, as its owner has them.
pub(crate) type CellTable<V, C, R> = Table<
    Held<V, C, R>,
    View<V, C, R>,
    Snapshot<V>,
    CellRule<V>,
    Global,
>;

/// The words and the slot of a cell, as its passes see them.
pub(crate) type CellShared<V, C, R> = Shared<
    Held<V, C, R>,
    View<V, C, R>,
    Snapshot<V>,
    CellRule<V>,
>;

/// What a pass steps with.
pub(crate) type CellSeat<V, C, R> = Seat<Held<V, C, R>, View<V, C, R>>;
