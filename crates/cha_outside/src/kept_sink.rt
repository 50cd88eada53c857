//! A sink in memory.

ghost use Rattle.std.specs.Prelude.{◌≡◌, ◌<◌, [], length, IfOk};
ghost use Rattle.std.specs.declared.option.Option.TheVariants.{Some};
ghost use Rattle.cha_outside.specs.Writing.{TakesBelow, Takes, WriteCause};
ghost use Rattle.cha_outside.specs.SinkState.{kept_answer, kept_after};

use crate::failing::is_among;
use crate::writing::{Sink, Wrote};
use cha_list::NoMemory;
use std::alloc::Global;
use std::marker::Model;

/// A sink that keeps what it takes, in room that is taken at the start. It takes no memory later.
#[derive(Drop)]
pub struct KeptSink {
    kept: Vec<u8>,
    room: usize,
    fails: Vec<u32>,
    calls: u64,
    faults: u64,
}

/// Contracts see what was written, the room, the calls that are to fail, and the counts of calls and of faults.
impl Model for KeptSink {
    ghost use Rattle.std.specs.Prelude.{◌≤◌, vec_len, vec_capacity};
    ghost use Rattle.cha_outside.specs.SinkState.{SinkState};

    ghost Value = { SinkState };

    ghost view = { λ s. record { written = s.kept.items; room = s.room; fails = s.fails.items; calls = s.calls; faults = s.faults } };

    ghost invariant = { λ s. (vec_len s.kept ≤ s.room) × (s.room ≤ vec_capacity s.kept) };
}

impl KeptSink {
    /// A sink with room for so many bytes. The calls numbered in `fails`, counted from 1, fail with no byte taken.
    pub fn new(alloc: Global, room: u32, fails: Vec<u32>) -> Result<KeptSink, NoMemory>
        ensures { IfOk result (λ kept. kept ≡ record { written = []; room = room; fails = fails.items; calls = 0; faults = 0 }) }
    {
        let room = room as usize;
        let kept = Vec::with_capacity(alloc, room)?;
        Ok(KeptSink {
            kept,
            room,
            fails,
            calls: 0,
            faults: 0,
        })
    }

    /// What was written.
    pub fn bytes(&self) -> &[u8]
        ensures { result.now ≡ self.now.written }
    {
        &self.kept
    }
}

impl Sink for KeptSink {
    ghost written = { λ s. Some s.written };

    ghost faults = { λ s. s.faults };

    /// Takes the whole piece where it fits and the call is not one that is to fail. A piece that does not fit fails
    /// after what fits.
    fn write(&mut self, bytes: &[u8]) -> Wrote
        requires { 0 < length bytes.now }
        ensures below { TakesBelow (length bytes.now) result }
        ensures bytes { Takes (Some self.old.written) (Some self.new.written) result bytes.now }
        ensures cause { WriteCause self.old.faults self.new.faults result }
        ensures answer { result ≡ kept_answer self.old bytes.now }
        ensures after { self.new ≡ kept_after self.old bytes.now }
    {
        self.calls = self.calls.saturating_add(1);
        if is_among(&self.fails, self.calls) {
            self.faults = self.faults.saturating_add(1);
            return Wrote::Failed(0);
        }
        let free = self.room - self.kept.len();
        if bytes.len() <= free {
            let _room_was_taken = self.kept.extend_from_slice(bytes);
            return Wrote::All;
        }
        let _room_was_taken = self.kept.extend_from_slice(&bytes[..free]);
        self.faults = self.faults.saturating_add(1);
        Wrote::Failed(free)
    }
}
