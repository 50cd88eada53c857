//! Where bytes go.

ghost use Rattle.std.specs.Prelude.{ℕ, ◌<◌, List, length};
ghost use Rattle.std.specs.declared.option.Option.{Option};
ghost use Rattle.cha_outside.specs.Writing.{TakesBelow, Takes, WriteCause};

/// What became of one write.
#[derive(Clone, Copy, Debug, PartialEq, Eq)]
pub enum Wrote {
    /// All the bytes were taken.
    All,
    /// The write failed, and the number says how many bytes at the front were taken before; it is below their count.
    Failed(usize),
}

/// A sink of bytes.
///
/// Contracts see two things of it. `written` is the list of bytes that it took, where that can be told; of a file or a
/// terminal it cannot. `faults` is the count of its failures, up to the greatest number of 64 bits; it never falls.
pub trait Sink {
    /// The bytes that it took, where they are told.
    ghost written: { Self → Option (List ℕ) };

    /// How often it failed.
    ghost faults: { Self → ℕ };

    /// Writes a piece that is not empty.
    ///
    /// `All` appends the whole piece to `written`. `Failed(n)` appends its first `n` bytes, fewer than all, and comes
    /// only where the count of faults rose in this call. A sink that takes nothing of a piece fails.
    fn write(&mut self, bytes: &[u8]) -> Wrote
        requires { 0 < length bytes.now }
        ensures below { TakesBelow (length bytes.now) result }
        ensures bytes { Takes (written self.old) (written self.new) result bytes.now }
        ensures cause { WriteCause (faults self.old) (faults self.new) result };
}
