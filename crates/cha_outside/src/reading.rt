//! Where bytes come from.

ghost use Rattle.std.specs.Prelude.{ℕ, ◌<◌, List, length};
ghost use Rattle.std.specs.declared.option.Option.{Option};
ghost use Rattle.cha_outside.specs.Reading.{GivesWithin, Gives, ReadCause};

/// What one read gave.
#[derive(Clone, Copy, Debug, PartialEq, Eq)]
pub enum Got {
    /// The next bytes, at least one, stand at the front of the buffer; the number says how many.
    Bytes(usize),
    /// There are no more bytes.
    End,
    /// The read failed, and took nothing from what is left.
    Failed,
}

/// A source of bytes.
///
/// Contracts see two things of it. `left` is the list of bytes that it still gives, where that can be told; of a file
/// or a terminal it cannot. `faults` is the count of its failures, up to the greatest number of 64 bits; it never falls.
pub trait Source {
    /// The bytes that it still gives, where they are told.
    ghost left: { Self → Option (List ℕ) };

    /// How often it failed.
    ghost faults: { Self → ℕ };

    /// Reads into a buffer that has room.
    ///
    /// `Bytes(n)` has `n` from 1 to the length of the buffer. `End` comes only where nothing is left, and `Failed` only
    /// where the count of faults rose in this call, and then `left` stays.
    fn read(&mut self, into: &mut [u8]) -> Got
        requires { 0 < length into.old }
        ensures within { GivesWithin (length into.old) result }
        ensures bytes { Gives (left self.old) (left self.new) result into.new }
        ensures cause { ReadCause (faults self.old) (faults self.new) result };
}
