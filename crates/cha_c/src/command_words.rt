//! The command words in one text.

ghost use Rattle.std.specs.Prelude.{◌≡◌, map, string_bytes, IfOk, IfErr};
ghost use Rattle.std.specs.Str.{IsUtf8};
ghost use Rattle.cha_c.specs.Answers.{words_at_zeros};

use cha_list::NoMemory;
use std::alloc::{AllocError, Global};
use std::str::from_utf8;

/// Why there are no words.
#[derive(Clone, Copy, Debug, PartialEq, Eq)]
pub enum WordsFault {
    /// The bytes are no UTF-8.
    NoText,
    /// The allocator refused memory.
    NoMemory,
}

/// The words of a text, which stand between its zero bytes.
pub fn words_of(alloc: Global, bytes: &[u8]) -> Result<Vec<String>, WordsFault>
    ensures words { IfOk result (λ words. map string_bytes words.items ≡ words_at_zeros bytes.now) }
    ensures text { IfOk result (λ _. IsUtf8 bytes.now) }
    ensures no_text { IfErr result (λ fault. fault ≡ WordsFault.NoText → IsUtf8 bytes.now → ⊥) }
{
    let Ok(text) = from_utf8(bytes) else {
        return Err(WordsFault::NoText);
    };
    match cut(alloc, text) {
        Ok(words) => Ok(words),
        Err(_) => Err(WordsFault::NoMemory),
    }
}

/// The parts of a text between its zero bytes, each as a text of its own.
fn cut(alloc: Global, text: &str) -> Result<Vec<String>, NoMemory>
    ensures { IfOk result (λ words. map string_bytes words.items ≡ words_at_zeros text.now) }
{
    let parts = parts_of(alloc, text)?;
    let mut words = Vec::new(alloc);
    for part in parts.as_slice() {
        words.push(String::from_str(alloc, *part)?)?;
    }
    Ok(words)
}

/// The parts of a text between its zero bytes.
fn parts_of(alloc: Global, text: &str) -> Result<Vec<&str>, AllocError>
    ensures { IfOk result (λ parts. map (λ part. part.now) parts.items ≡ words_at_zeros text.now) }
{
    text.split('\0').collect(alloc)
}
