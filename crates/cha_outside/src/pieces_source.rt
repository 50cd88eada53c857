//! A list of bytes that comes in pieces, with calls that fail.

ghost use Rattle.std.specs.Prelude.{◌≡◌, ◌<◌, length};
ghost use Rattle.std.specs.declared.option.Option.TheVariants.{Some};
ghost use Rattle.cha_outside.specs.Reading.{GivesWithin, Gives, ReadCause};
ghost use Rattle.cha_outside.specs.PiecesState.{size_at, pieces_answer, pieces_after};

use crate::failing::is_among;
use crate::filling::{copy_front, got};
use crate::reading::{Got, Source};
use std::marker::Model;

/// A source of a list of bytes whose reads are cut to given sizes, and fail at given calls.
#[derive(Drop)]
pub struct Pieces {
    bytes: Vec<u8>,
    at: usize,
    sizes: Vec<u32>,
    fails: Vec<u32>,
    calls: u64,
    faults: u64,
}

/// Contracts see the bytes that are left, the sizes, the calls that are to fail, and the counts of calls and of faults.
impl Model for Pieces {
    ghost use Rattle.std.specs.Prelude.{◌≤◌, drop, vec_len};
    ghost use Rattle.cha_outside.specs.PiecesState.{PiecesState};

    ghost Value = { PiecesState };

    ghost view = { λ s. record { left = drop s.at s.bytes.items; sizes = s.sizes.items; fails = s.fails.items; calls = s.calls; faults = s.faults } };

    ghost invariant = { λ s. s.at ≤ vec_len s.bytes };
}

impl Pieces {
    /// A source of these bytes. The k-th call gives at most as many as the k-th size says, and the last size serves
    /// again when they run out; a size of 0 counts as 1, and so does a list of no size. The calls numbered in `fails`,
    /// counted from 1, fail.
    pub fn new(bytes: Vec<u8>, sizes: Vec<u32>, fails: Vec<u32>) -> Pieces
        ensures { result ≡ record { left = bytes.items; sizes = sizes.items; fails = fails.items; calls = 0; faults = 0 } }
    {
        Pieces {
            bytes,
            at: 0,
            sizes,
            fails,
            calls: 0,
            faults: 0,
        }
    }
}

/// The size of the call with this number, from 1.
fn size_of_call(sizes: &[u32], number: u64) -> usize
    ensures { result ≡ size_at sizes.now number }
{
    let last = sizes.len().saturating_sub(1) as u64;
    let index = number.saturating_sub(1).min(last) as usize;
    match sizes.get(index) {
        Some(size) => (*size as usize).max(1),
        None => 1,
    }
}

impl Source for Pieces {
    ghost left = { λ s. Some s.left };

    ghost faults = { λ s. s.faults };

    /// Gives as many bytes as the size of this call, the room and what is left allow, or fails where it is to.
    fn read(&mut self, into: &mut [u8]) -> Got
        requires { 0 < length into.old }
        ensures within { GivesWithin (length into.old) result }
        ensures bytes { Gives (Some self.old.left) (Some self.new.left) result into.new }
        ensures cause { ReadCause self.old.faults self.new.faults result }
        ensures answer { result ≡ pieces_answer self.old (length into.old) }
        ensures after { self.new ≡ pieces_after self.old (length into.old) }
    {
        self.calls = self.calls.saturating_add(1);
        if is_among(&self.fails, self.calls) {
            self.faults = self.faults.saturating_add(1);
            return Got::Failed;
        }
        let most = size_of_call(&self.sizes, self.calls);
        let n = copy_front(&self.bytes[self.at..], into, most);
        self.at += n;
        got(n)
    }
}
