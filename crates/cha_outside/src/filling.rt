//! The front of a buffer, and the answer of a read that filled it.

ghost use Rattle.std.specs.Prelude.{◌≡◌, min, length, take};
ghost use Rattle.cha_outside.specs.Reading.{given};

use crate::reading::Got;

/// Copies as many bytes as both have, and no more than `most`. It answers how many.
pub(crate) fn copy_front(from: &[u8], into: &mut [u8], most: usize) -> usize
    ensures count { result ≡ min most (min (length into.old) (length from.now)) }
    ensures copied { take result into.new ≡ take result from.now }
{
    let n = most.min(into.len().min(from.len()));
    into[..n].copy_from_slice(&from[..n]);
    n
}

/// The answer of a read that gave `n` bytes.
pub(crate) fn got(n: usize) -> Got
    ensures { result ≡ given n }
{
    if n == 0 { Got::End } else { Got::Bytes(n) }
}
