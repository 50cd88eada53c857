//! How what is printed goes out.

ghost use Rattle.std.specs.Prelude.{◌≢◌, []};
ghost use Rattle.cha_outside.specs.Writing.{Takes, WriteCause};

use cha_outside::{Sink, Wrote};

/// Writes a piece of output in one write, if it is not empty.
pub fn put<K: Sink>(sink: &mut K, piece: &[u8]) -> Wrote
    ensures bytes { Takes (K.written sink.old) (K.written sink.new) result piece.now }
    ensures cause { WriteCause (K.faults sink.old) (K.faults sink.new) result }
    ensures some { result ≢ Wrote.All → piece.now ≢ [] }
{
    if piece.is_empty() {
        return Wrote::All;
    }
    sink.write(piece)
}
