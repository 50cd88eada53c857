//! A whole input in one list.

ghost use Rattle.std.specs.Prelude.{◌≡◌, ◌+◌, ◌<◌, ◌≤◌, ◌↔◌, ℕ, List, max, length, IfOk, OnOk, IsErr, ◌≢◌, vec_len};
ghost use Rattle.std.specs.Io.KnownBytes.{Consumes, IsAtEnd};
ghost use Rattle.cha_outside.specs.Faults.{Rose};
ghost use Rattle.cha_outside.specs.Gathering.{Took, Gathers};

use crate::reading::{Got, Source};
use std::alloc::Global;

/// The most bytes that a whole input may have: 256 MiB.
pub const MOST_BYTES: usize = 268_435_456;

/// Why an input was not read to its end.
#[derive(Clone, Copy, Debug, PartialEq, Eq)]
pub enum ReadEnd {
    /// The source failed.
    ReadFault,
    /// The source gave more bytes than the limit.
    TooLong,
    /// The allocator refused memory.
    NoMemory,
}

/// Appends what a source gives, up to its end. It reads 4,096 bytes at a time, and begins no read once there are more
/// than `limit`. What was read before a failure stands among the bytes too.
#[tactic(auto, using(crate::proofs::Gathered::gathers_nothing, crate::proofs::Gathered::gathers_more, crate::proofs::Gathered::gathers_and_keeps))]
pub fn take_all<S: Source>(taken: &mut Vec<u8>, source: &mut S, limit: usize) -> Result<(), ReadEnd>
    ensures bytes { Gathers (S.left source.old) (S.left source.new) taken.old.items taken.new.items }
    ensures ok { OnOk result (IsAtEnd (S.left source.new)) }
    ensures read_fault { result ≡ Err ReadEnd.ReadFault → Rose (S.faults source.old) (S.faults source.new) }
    ensures too_long { (result ≡ Err ReadEnd.TooLong) ↔ (limit < vec_len taken.new) }
    ensures few { vec_len taken.new ≤ max (vec_len taken.old) (limit + 4096) }
    ensures later { S.faults source.old ≤ S.faults source.new }
{
    let mut piece = [0u8; 4096];
    while taken.len() <= limit {
        let Ok(()) = taken.try_reserve(4096) else {
            return Err(ReadEnd::NoMemory);
        };
        match source.read(&mut piece) {
            Got::Bytes(n) => {
                let Ok(()) = taken.extend_from_slice(&piece[..n]) else {
                    unreachable!()
                };
            }
            Got::End => return Ok(()),
            Got::Failed => return Err(ReadEnd::ReadFault),
        }
    }
    Err(ReadEnd::TooLong)
}

/// Reads a source to its end, and gives all its bytes. It begins no read once more than `limit` bytes were taken.
///
/// After an error the bytes taken are gone from the source. A source that tells what it has left is too long exactly
/// where that is more than `limit` bytes, unless it fails or memory is refused first.
#[tactic(auto, using(crate::proofs::Gathered::gathered_whole, crate::proofs::Gathered::gathered_front))]
pub fn read_all<S: Source>(alloc: Global, source: &mut S, limit: usize) -> Result<Vec<u8>, ReadEnd>
    ensures all { IfOk result (λ v. Consumes (S.left source.old) (S.left source.new) v.items × IsAtEnd (S.left source.new) × (vec_len v ≤ limit)) }
    ensures read_fault { result ≡ Err ReadEnd.ReadFault → Took (S.left source.old) (S.left source.new) (λ taken. length taken ≤ limit) }
    ensures too_long { result ≡ Err ReadEnd.TooLong → Took (S.left source.old) (S.left source.new) (λ taken. (limit < length taken) × (length taken ≤ limit + 4096)) }
    ensures no_memory { result ≡ Err ReadEnd.NoMemory → Took (S.left source.old) (S.left source.new) (λ taken. length taken ≤ limit) }
    ensures cause { result ≡ Err ReadEnd.ReadFault → Rose (S.faults source.old) (S.faults source.new) }
    ensures whole { (bytes : List ℕ) → S.left source.old ≡ Some bytes → IfOk result (λ v. v.items ≡ bytes) }
    ensures over_limit { (bytes : List ℕ) → S.left source.old ≡ Some bytes → limit < length bytes → IsErr result }
    ensures within_limit { (bytes : List ℕ) → S.left source.old ≡ Some bytes → length bytes ≤ limit → result ≢ Err ReadEnd.TooLong }
    ensures later { S.faults source.old ≤ S.faults source.new }
{
    let mut taken = Vec::new(alloc);
    match take_all(&mut taken, source, limit) {
        Ok(()) => Ok(taken),
        Err(end) => Err(end),
    }
}
