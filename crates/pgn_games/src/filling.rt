//! The pieces in which a source is read.

ghost use Rattle.std.specs.Prelude.{◌≡◌, ◌<◌, ◌≤◌, [], length, OnErr};
ghost use Rattle.std.specs.declared.result.Result.TheVariants.{Ok, Err};
ghost use Rattle.std.specs.Io.KnownBytes.{Consumes, IsAtEnd};
ghost use Rattle.cha_outside.specs.Faults.{Rose};

use cha_outside::{Got, MOST_BYTES, ReadEnd, Source};

/// How many bytes the first read asks for, where so many may still be taken.
const PIECE: usize = 65_536;

/// How many bytes a later read asks for at most.
const MOST_PIECE: usize = 8_388_608;

/// How many times as many bytes a later read asks for as the last one gave: a file soon comes in large pieces, whose games are judged side
/// by side, and what comes bit by bit needs little room. Before each read all that is judged is written, so that threads wait.
const GROWTH: usize = 8;

/// The most bytes that are taken of a source: 4,096 more than a text may have, by which it is seen to be too long.
pub const MOST_TAKEN: usize = MOST_BYTES + 4096;

/// What one read gave.
#[derive(Clone, Copy, Debug, PartialEq, Eq)]
pub enum Filled {
    /// A piece of one byte or more.
    More,
    /// The end of the source.
    End,
}

/// Reads the next piece of a source, in place of the last one. It asks for eight times as many bytes as the last one has, but for 65,536
/// at least, 8,388,608 at most, and never for more than `most`. The room is what is read into; it grows, and serves again.
pub fn fill<S: Source>(
    piece: &mut Vec<u8>,
    room: &mut Vec<u8>,
    source: &mut S,
    most: usize,
) -> Result<Filled, ReadEnd>
    requires { 0 < most }
    ensures bytes { Consumes (S.left source.old) (S.left source.new) piece.new.items }
    ensures few { length piece.new.items ≤ 8388608 }
    ensures within { length piece.new.items ≤ most }
    ensures more { result ≡ Ok Filled.More → 0 < length piece.new.items }
    ensures end { result ≡ Ok Filled.End → IsAtEnd (S.left source.new) × (piece.new.items ≡ []) }
    ensures err { OnErr result (piece.new.items ≡ []) }
    ensures cause { result ≡ Err ReadEnd.ReadFault → Rose (S.faults source.old) (S.faults source.new) }
    ensures not_long { result ≡ Err ReadEnd.TooLong → ⊥ }
    ensures later { S.faults source.old ≤ S.faults source.new }
{
    let size = most.min(piece.len().saturating_mul(GROWTH).clamp(PIECE, MOST_PIECE));
    piece.clear();
    let (Ok(()), Ok(())) = (room.resize(size, 0), piece.try_reserve(size)) else {
        return Err(ReadEnd::NoMemory);
    };
    match source.read(room.as_mut_slice()) {
        Got::Bytes(n) => {
            let Ok(()) = piece.extend_from_slice(&room[..n]) else {
                unreachable!()
            };
            Ok(Filled::More)
        }
        Got::End => Ok(Filled::End),
        Got::Failed => Err(ReadEnd::ReadFault),
    }
}
