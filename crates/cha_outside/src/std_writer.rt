//! std's writers as sinks.

ghost use Rattle.std.specs.Prelude.{◌≡◌, ◌<◌, length, None};
ghost use Rattle.cha_outside.specs.declared.writing.Wrote.TheVariants.{Failed};
ghost use Rattle.cha_outside.specs.Faults.{counted};
ghost use Rattle.cha_outside.specs.Adapters.{writer_of, write_faults, write_faults_after, Passes};
ghost use Rattle.cha_outside.specs.Writing.{TakesBelow, Takes, WriteCause};

use crate::writing::{Sink, Wrote};
use std::io::Write;

/// A sink over a writer of std. Each error of the writer is a fault, and so is a write that takes nothing.
///
/// Each piece is flushed before `All` is answered. A flush that fails is a fault, answered as `Failed(0)`: the bytes
/// may have gone out by then, so `written` is never told.
#[derive(Drop)]
pub struct WriteTo<W> {
    writer: W,
    faults: u64,
}

impl<W: Write> WriteTo<W> {
    /// A sink over this writer, with no fault so far.
    pub fn new(writer: W) -> WriteTo<W>
        ensures writer { writer_of result ≡ writer }
        ensures faults { write_faults result ≡ 0 }
    {
        WriteTo { writer, faults: 0 }
    }

    /// Counts a fault, and answers that `taken` bytes went before it.
    fn failed(&mut self, taken: usize) -> Wrote
        ensures answer { result ≡ Failed taken }
        ensures counted { write_faults self.new ≡ counted (write_faults self.old) }
        ensures writer { writer_of self.new ≡ writer_of self.old }
    {
        self.faults = self.faults.saturating_add(1);
        Wrote::Failed(taken)
    }
}

impl<W: Write> Sink for WriteTo<W> {
    ghost written = { λ _. None };

    ghost faults = { λ s. write_faults s };

    /// Where the writer tells what it holds, `All` says that it holds the piece too. A failure says that it holds the
    /// bytes counted, or, after a flush that failed, the whole piece. A failure is counted once, and nothing else is.
    fn write(&mut self, bytes: &[u8]) -> Wrote
        requires { 0 < length bytes.now }
        ensures below { TakesBelow (length bytes.now) result }
        ensures bytes { Takes None None result bytes.now }
        ensures cause { WriteCause (write_faults self.old) (write_faults self.new) result }
        ensures counted { write_faults self.new ≡ write_faults_after (write_faults self.old) result }
        ensures passed { Passes (W.contents (writer_of self.old)) (W.contents (writer_of self.new)) result bytes.now }
    {
        let mut taken = 0;
        while taken < bytes.len() {
            match self.writer.write(&bytes[taken..]) {
                Ok(0) => return self.failed(taken),
                Ok(n) => taken += n,
                Err(_) => return self.failed(taken),
            }
        }
        match self.writer.flush() {
            Ok(()) => Wrote::All,
            Err(_) => self.failed(0),
        }
    }
}
