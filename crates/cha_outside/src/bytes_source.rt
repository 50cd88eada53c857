//! A list of bytes as a source.

ghost use Rattle.std.specs.Prelude.{◌≡◌, ◌<◌, length, min, drop};
ghost use Rattle.std.specs.declared.option.Option.TheVariants.{Some};
ghost use Rattle.cha_outside.specs.Reading.{GivesWithin, Gives, ReadCause, given};

use crate::filling::{copy_front, got};
use crate::reading::{Got, Source};
use std::marker::Model;

/// A source of a list of bytes. It never fails.
#[derive(Drop)]
pub struct Bytes {
    bytes: Vec<u8>,
    at: usize,
}

/// Contracts see the bytes that are left.
impl Model for Bytes {
    ghost use Rattle.std.specs.Prelude.{List, ℕ, ◌≤◌, drop, vec_len};

    ghost Value = { List ℕ };

    ghost view = { λ s. drop s.at s.bytes.items };

    ghost invariant = { λ s. s.at ≤ vec_len s.bytes };
}

impl Bytes {
    /// The source that gives these bytes.
    pub fn new(bytes: Vec<u8>) -> Bytes
        ensures { result ≡ bytes.items }
    {
        Bytes { bytes, at: 0 }
    }
}

impl Source for Bytes {
    ghost left = { λ s. Some s };

    ghost faults = { λ _. 0 };

    /// Gives as many bytes as there is room for, and all that are left where they are fewer.
    fn read(&mut self, into: &mut [u8]) -> Got
        requires { 0 < length into.old }
        ensures within { GivesWithin (length into.old) result }
        ensures bytes { Gives (Some self.old) (Some self.new) result into.new }
        ensures cause { ReadCause 0 0 result }
        ensures exact { result ≡ given (min (length into.old) (length self.old)) }
        ensures after { self.new ≡ drop (length into.old) self.old }
    {
        let n = copy_front(&self.bytes[self.at..], into, usize::MAX);
        self.at += n;
        got(n)
    }
}
