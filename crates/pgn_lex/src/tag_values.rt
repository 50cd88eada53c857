//! The value of a tag pair, byte by byte.

ghost use Rattle.std.specs.Prelude.{ℕ, List, [], ◌∷◌, ◌++◌, false, OnOk, IfOk};
ghost use Rattle.pgn_lex.specs.Tags.{value_after};
ghost use Rattle.pgn_lex.specs.Values.{Keeps, Steps, ReadsValue};

use cha_list::{ByteClass, Class, NoMemory, Text};
use std::alloc::Global;

/// How many bytes of a value are kept.
const KEPT: usize = 4096;

/// A value that was read to its closing quote: the bytes that are kept of it, whether it had more, and how many bytes
/// of the input it takes, with its quote.
#[derive(Drop)]
pub struct Value {
    pub text: Text,
    pub cut: bool,
    pub size: usize,
}

/// What a byte does to a value.
#[derive(Clone, Copy, Debug, PartialEq, Eq)]
pub enum Step {
    /// It is the closing quote.
    Closed,
    /// It is no part of a value.
    Broken,
    /// The value goes on, and a backslash may have come just now.
    On(bool),
}

/// Keeps a byte, if there is room.
fn keep(byte: u8, text: &mut Text, cut: &mut bool) -> Result<(), NoMemory>
    ensures { OnOk result ((front : List ℕ) → Keeps text.old cut.old front
        → Keeps text.new cut.new (front ++ byte ∷ [])) }
{
    if text.items().len() < KEPT {
        text.push(byte)?;
        return Ok(());
    }
    *cut = true;
    Ok(())
}

/// Takes one byte of a value, before which a backslash may have come.
#[tactic(auto, unfolding(crate::specs::Tags::value_after))]
fn value_step(byte: u8, escaped: bool, text: &mut Text, cut: &mut bool) -> Result<Step, NoMemory>
    ensures { IfOk result (λ step. Steps step byte escaped text.old cut.old text.new cut.new) }
{
    if escaped {
        if byte == b'"' || byte == b'\\' {
            keep(byte, text, cut)?;
            return Ok(Step::On(false));
        }
        if !Class::InLine.is_of(byte) {
            return Ok(Step::Broken);
        }
        keep(b'\\', text, cut)?;
        keep(byte, text, cut)?;
        return Ok(Step::On(false));
    }
    if byte == b'"' {
        return Ok(Step::Closed);
    }
    if !Class::InLine.is_of(byte) {
        return Ok(Step::Broken);
    }
    if byte == b'\\' {
        return Ok(Step::On(true));
    }
    keep(byte, text, cut)?;
    Ok(Step::On(false))
}

/// A value, after its opening quote.
pub fn value_of(alloc: Global, bytes: &[u8]) -> Result<Option<Value>, NoMemory>
    ensures { IfOk result (λ found. ReadsValue found bytes.now (value_after false bytes.now)) }
{
    let mut text = Text::new(alloc);
    let mut cut = false;
    let mut escaped = false;
    let mut at = 0;
    while at < bytes.len() {
        match value_step(bytes[at], escaped, &mut text, &mut cut)? {
            Step::Closed => {
                return Ok(Some(Value {
                    text,
                    cut,
                    size: at + 1,
                }));
            }
            Step::Broken => return Ok(None),
            Step::On(after) => {
                escaped = after;
                at += 1;
            }
        }
    }
    Ok(None)
}
