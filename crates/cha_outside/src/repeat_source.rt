//! One byte again and again.

ghost use Rattle.std.specs.Prelude.{◌≡◌, ◌-◌, ◌<◌, length, min, replicate};
ghost use Rattle.std.specs.declared.option.Option.TheVariants.{Some};
ghost use Rattle.cha_outside.specs.Reading.{GivesWithin, Gives, ReadCause, given};

use crate::filling::got;
use crate::reading::{Got, Source};
use std::marker::Model;

/// A source of equal bytes. It never fails, and takes no memory.
#[derive(Drop)]
pub struct Repeat {
    byte: u8,
    count: u64,
}

/// Contracts see the byte, and how often it is still given.
impl Model for Repeat {
    ghost use Rattle.cha_outside.specs.RepeatState.{RepeatState};

    ghost Value = { RepeatState };

    ghost view = { λ s. record { byte = s.byte; count = s.count } };
}

impl Repeat {
    /// The source that gives this byte so often.
    pub fn new(byte: u8, count: u64) -> Repeat
        ensures { result ≡ record { byte = byte; count = count } }
    {
        Repeat { byte, count }
    }
}

impl Source for Repeat {
    ghost left = { λ s. Some (replicate s.count s.byte) };

    ghost faults = { λ _. 0 };

    /// Fills the buffer, or as much of it as there are bytes.
    fn read(&mut self, into: &mut [u8]) -> Got
        requires { 0 < length into.old }
        ensures within { GivesWithin (length into.old) result }
        ensures bytes { Gives (Some (replicate self.old.count self.old.byte)) (Some (replicate self.new.count self.new.byte)) result into.new }
        ensures cause { ReadCause 0 0 result }
        ensures exact { result ≡ given (min (length into.old) self.old.count) }
        ensures after { self.new ≡ record self.old { count = self.old.count - length into.old } }
    {
        let n = self.count.min(into.len() as u64) as usize;
        into[..n].fill(self.byte);
        self.count -= n as u64;
        got(n)
    }
}
