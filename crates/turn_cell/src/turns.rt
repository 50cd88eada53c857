//! What can be done with a cell and its passes.

ghost use Rattle.std.specs.Prelude.{◌≡◌, ◌<◌, ◌≤◌, ◌+◌, ◌-◌, ◌↔◌, [], ◌∷◌, IfOk, IfErr, IsErr};
ghost use Rattle.turn_cell.specs.Histories.{IsLegalHistory, taken_back, AreTheirs};
ghost use Rattle.turn_cell.specs.Passes.{start, known, number, seen, mine, taken, splits, joins, IsOf, IsFirst, Turned, SplitOff, Joined};

use crate::cells::{Pass, Still, TurnCell};
use crate::object::Object;
use crate::opening::{open, value_of};
use crate::sharing::{split_off, take_back};
use crate::taking::take_turn;
use cha_list::NoMemory;
use std::alloc::Global;
use std::sync::Wait;

impl<V: Object> Pass<V> {
    /// How many passes were split off this one: 0 to 1,000, and 0 but for a cell's first pass.
    pub fn splits(&self) -> u32
        ensures count { result ≡ splits self.now }
        ensures limit { result ≤ 1000 }
    {
        self.splits
    }

    /// How many passes that were split off this one are still out.
    pub fn others(&self) -> u32
        ensures count { result ≡ splits self.now - joins self.now }
        ensures order { joins self.now ≤ splits self.now }
    {
        self.splits - self.joins
    }
}

impl<V: Object> TurnCell<V> {
    /// A cell with this value and no history, and its first pass, whose number is 0. Where memory is refused, the value
    /// comes back.
    pub fn new(alloc: Global, value: V) -> Result<(TurnCell<V>, Pass<V>), (V, NoMemory)>
        ensures start { IfOk result (λ t. start t.0 ≡ value) }
        ensures first { IfOk result (λ t. IsOf t.0 t.1 × IsFirst t.1) }
        ensures empty { IfOk result (λ t. (seen t.1 ≡ []) × (mine t.1 ≡ [])) }
        ensures counts { IfOk result (λ t. (splits t.1 ≡ 0) × (joins t.1 ≡ 0)) }
        ensures value_returned { IfErr result (λ refused. refused.0 ≡ value) }
    {
        match open(alloc, value) {
            Ok((table, seat)) => {
                let pass = Pass {
                    seat,
                    splits: 0,
                    joins: 0,
                };
                Ok((TurnCell { table }, pass))
            }
            Err(refused) => Err(refused),
        }
    }

    /// Makes one call at the value. It may wait for turns of other passes to end, and sleeps where that takes long.
    ///
    /// The pass then knows one legal history of all calls up to this one, which goes on from what it knew and ends with
    /// this call. No memory is taken but by the call itself.
    pub fn turn<R: Wait>(&self, rt: &R, pass: &mut Pass<V>, call: V::Call) -> V::Reply
        requires { IsOf self.now pass.old }
        ensures of { IsOf self.now pass.new }
        ensures turned { Turned V.step (start self.now) (known pass.old) call result (known pass.new) }
    {
        take_turn(rt, &self.table.shared, &mut pass.seat, call)
    }

    /// A new pass, with the next number, that knows what the first pass knows and has made no call. Only the first pass can
    /// be split, and at most a thousand times.
    pub fn split(&self, pass: &mut Pass<V>) -> Pass<V>
        requires of { IsOf self.now pass.old }
        requires first { IsFirst pass.old }
        requires few { splits pass.old < 1000 }
        ensures of { IsOf self.now pass.new × IsOf self.now result }
        ensures split { SplitOff (known pass.old) (known pass.new) (known result) }
    {
        let seat = split_off(&self.table.shared, &mut pass.seat);
        pass.splits += 1;
        Pass {
            seat,
            splits: 0,
            joins: 0,
        }
    }

    /// Takes a pass back into the first one, which then knows what either knew. In what it knows, the entries under the number
    /// of each pass that it ever took back are those that that pass made.
    pub fn join(&self, pass: &mut Pass<V>, other: Pass<V>)
        requires of { IsOf self.now pass.old × IsOf self.now other }
        requires first { IsFirst pass.old }
        ensures of { IsOf self.now pass.new }
        ensures joined { Joined (known pass.old) (known other) (known pass.new) }
        ensures taken { taken pass.new ≡ taken_back (number other) (mine other) ∷ taken pass.old }
        ensures theirs { AreTheirs (taken pass.new) (seen pass.new) }
    {
        take_back(&self.table.shared, &mut pass.seat, other.into_seat());
        pass.joins += 1;
    }

    /// Closes the cell, and gives the value after all calls that the first pass knows. While other passes are out, cell and pass
    /// come back as they were, with the number of passes.
    pub fn close(self, pass: Pass<V>) -> Result<V, Still<V>>
        requires of { IsOf self pass }
        requires first { IsFirst pass }
        ensures value { IfOk result (λ value. IsLegalHistory V.step (start self) (seen pass) value) }
        ensures still { IfErr result (λ still. (still.cell ≡ self) × (still.pass ≡ pass) × (still.passes ≡ splits pass - joins pass + 1)) }
        ensures exactly { IsErr result ↔ (joins pass < splits pass) }
    {
        if pass.joins < pass.splits {
            let passes = pass.splits - pass.joins + 1;
            return Err(Still {
                cell: self,
                pass,
                passes,
            });
        }
        let mut closed = self.into_table().close_with(pass.into_seat());
        let held = closed.take(0);
        closed.free();
        Ok(value_of(held))
    }
}
