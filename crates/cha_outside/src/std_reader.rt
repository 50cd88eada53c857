//! std's readers as sources.

ghost use Rattle.std.specs.Prelude.{◌≡◌, ◌<◌, length};
ghost use Rattle.cha_outside.specs.Adapters.{reader_of, read_faults, read_faults_after};
ghost use Rattle.cha_outside.specs.Reading.{GivesWithin, Gives, ReadCause};

use crate::reading::{Got, Source};
use std::io::Read;

/// A source over a reader of std. Each error of the reader is a fault; what is left is told where the reader tells it,
/// as it does not for a file or a terminal.
#[derive(Drop)]
pub struct ReadFrom<R> {
    reader: R,
    faults: u64,
}

impl<R: Read> ReadFrom<R> {
    /// A source over this reader, with no fault so far.
    pub fn new(reader: R) -> ReadFrom<R>
        ensures reader { reader_of result ≡ reader }
        ensures faults { read_faults result ≡ 0 }
    {
        ReadFrom { reader, faults: 0 }
    }
}

impl<R: Read> Source for ReadFrom<R> {
    ghost left = { λ s. R.remaining (reader_of s) };

    ghost faults = { λ s. read_faults s };

    /// Asks the reader once. A failure is counted, and nothing else is.
    fn read(&mut self, into: &mut [u8]) -> Got
        requires { 0 < length into.old }
        ensures within { GivesWithin (length into.old) result }
        ensures bytes { Gives (R.remaining (reader_of self.old)) (R.remaining (reader_of self.new)) result into.new }
        ensures cause { ReadCause (read_faults self.old) (read_faults self.new) result }
        ensures counted { read_faults self.new ≡ read_faults_after (read_faults self.old) result }
    {
        match self.reader.read(into) {
            Ok(0) => Got::End,
            Ok(n) => Got::Bytes(n),
            Err(_) => {
                self.faults = self.faults.saturating_add(1);
                Got::Failed
            }
        }
    }
}
