//! Bytes that a caller lends, as a source.

ghost use Rattle.std.specs.Prelude.{◌≡◌, ◌<◌, length};
ghost use Rattle.std.specs.declared.option.Option.TheVariants.{Some};
ghost use Rattle.cha_outside.specs.Reading.{GivesWithin, Gives, ReadCause};

use cha_outside::{Got, Source};
use std::marker::Model;

/// A source of the bytes of a slice, none of which is copied before it is read. It never fails.
#[derive(Drop)]
pub struct Slice<'a> {
    left: &'a [u8],
}

/// Contracts see the bytes that are left.
impl<'a> Model for Slice<'a> {
    ghost use Rattle.std.specs.Prelude.{List, ℕ};

    ghost Value = { List ℕ };

    ghost view = { λ s. s.left.now };
}

impl<'a> Slice<'a> {
    /// The source that gives these bytes.
    pub fn new(left: &'a [u8]) -> Slice<'a>
        ensures { result ≡ left.now }
    {
        Slice { left }
    }
}

impl<'a> Source for Slice<'a> {
    ghost left = { λ s. Some s };

    ghost faults = { λ _. 0 };

    /// Gives as many bytes as there is room for, and all that are left where they are fewer.
    fn read(&mut self, into: &mut [u8]) -> Got
        requires { 0 < length into.old }
        ensures within { GivesWithin (length into.old) result }
        ensures bytes { Gives (Some self.old) (Some self.new) result into.new }
        ensures cause { ReadCause 0 0 result }
    {
        let n = self.left.len().min(into.len());
        if n == 0 {
            return Got::End;
        }
        into[..n].copy_from_slice(&self.left[..n]);
        self.left = &self.left[n..];
        Got::Bytes(n)
    }
}
