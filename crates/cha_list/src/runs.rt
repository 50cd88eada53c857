//! How many bytes of a class stand at an end of a text.

ghost use Rattle.std.specs.Prelude.{◌≡◌, ◌≤◌, ◌==◌, length, count_by};
ghost use Rattle.std.specs.List.{prefix_len, suffix_len, list_all};

use crate::classes::ByteClass;

/// How many bytes at the front are of a class: the length of the longest such run.
pub fn run_of<C: ByteClass>(class: C, bytes: &[u8]) -> usize
    ensures value { result ≡ prefix_len (C.has class) bytes.now }
    ensures bound { result ≤ length bytes.now }
{
    let mut end = 0;
    while end < bytes.len() && class.is_of(bytes[end]) {
        end += 1;
    }
    end
}

/// How many bytes at the end are of a class.
pub fn run_back<C: ByteClass>(class: C, bytes: &[u8]) -> usize
    ensures value { result ≡ suffix_len (C.has class) bytes.now }
    ensures bound { result ≤ length bytes.now }
{
    let mut start = bytes.len();
    while start > 0 && class.is_of(bytes[start - 1]) {
        start -= 1;
    }
    bytes.len() - start
}

/// Whether each byte is of a class.
pub fn all_of<C: ByteClass>(class: C, bytes: &[u8]) -> bool
    ensures { result ≡ list_all (C.has class) bytes.now }
{
    bytes.iter().all(|byte| class.is_of(*byte))
}

/// How often a byte stands in a text.
pub fn count_of(wanted: u8, bytes: &[u8]) -> usize
    ensures value { result ≡ count_by (λ byte. byte == wanted) bytes.now }
    ensures bound { result ≤ length bytes.now }
{
    bytes.iter().filter(|byte| **byte == wanted).count()
}
