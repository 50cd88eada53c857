//! The lexer that takes single bytes.

ghost use Rattle.std.specs.Prelude.{◌≡◌, ◌+◌, ◌-◌, ◌^◌, ◌<◌, ◌≤◌, ◌++◌, ◌∷◌, [], List, ℕ, true, false, length, take, vec_capacity, OnOk, OnErr, IfOk};
ghost use Rattle.pgn_lex.specs.Lexing.{Appends};
ghost use Rattle.pgn_lex.specs.Stages.{begins_line, word_so_far, word_after, grown_value, value_from};
ghost use Rattle.pgn_lex.specs.Lines.{ends_line};
ghost use Rattle.pgn_lex.specs.Tokens.{tokens, settled_tokens};

use crate::history::History;
use crate::kinds::{Extent, Placed};
use crate::lines::feeds_with;
use crate::saying::say;
use crate::stages::{Next, Stage, what_begins, what_follows};
use cha_list::{ByteClass, Class, NoMemory};
use std::alloc::Global;
use std::marker::Model;
use std::snapshot::Snapshot;

/// How many bytes of a word or a name are kept.
const WORD_KEPT: usize = 255;

/// How many bytes of a value are kept: one more than its token has, which tells that it is cut.
const VALUE_KEPT: usize = 4097;

/// A lexer that takes a text byte by byte, and gives each token with the byte behind it.
#[derive(Drop)]
pub struct Lexer {
    alloc: Global,
    fed: History<u8>,
    stage: Stage,
    start: u64,
    start_line: u64,
    at: u64,
    feeds: u64,
    first: bool,
    word: Vec<u8>,
    value: Vec<u8>,
    ended: bool,
}

/// Contracts see the bytes that were fed, and whether their end was told.
impl Model for Lexer {
    ghost use Rattle.std.specs.Prelude.{vec_capacity};
    ghost use Rattle.pgn_lex.specs.Lexing.{LexerState, IsFed};

    ghost Value = { LexerState };

    ghost view = { λ s. record { fed = s.fed; ended = s.ended } };

    ghost invariant = { λ s. IsFed s.fed s.stage s.start s.start_line s.at s.feeds s.first s.word.items s.value.items (vec_capacity s.word) (vec_capacity s.value) };
}

/// Keeps a byte behind those that are kept, where fewer than `most` are.
fn keep(byte: u8, most: usize, kept: &mut Vec<u8>)
    requires { most ≤ vec_capacity kept.old }
    ensures kept { (full : List ℕ) → kept.old.items ≡ take most full → kept.new.items ≡ take most (full ++ byte ∷ []) }
    ensures room { vec_capacity kept.old ≤ vec_capacity kept.new }
{
    if kept.len() < most {
        let Ok(()) = kept.push(byte) else {
            unreachable!()
        };
    }
}

/// Keeps a byte of a word or of a name, which begins behind a bracket.
fn keep_spelling(before: Stage, byte: u8, word: &mut Vec<u8>)
    requires { 255 ≤ vec_capacity word.old }
    ensures kept { (full : List ℕ) → word.old.items ≡ take 255 full → word.new.items ≡ take 255 (word_so_far before full ++ byte ∷ []) }
    ensures room { vec_capacity word.old ≤ vec_capacity word.new }
{
    match before {
        Stage::InTag => begin_word(byte, word),
        _ => keep(byte, WORD_KEPT, word),
    }
}

/// Keeps a byte of a word or of a name, if it is one.
#[tactic(auto, unfolding(crate::specs::Stages::word_after))]
fn keep_word(before: Stage, now: Stage, byte: u8, word: &mut Vec<u8>)
    requires { 255 ≤ vec_capacity word.old }
    ensures kept { (full : List ℕ) → word.old.items ≡ take 255 full → word.new.items ≡ take 255 (word_after before now byte full) }
    ensures room { vec_capacity word.old ≤ vec_capacity word.new }
{
    match now {
        Stage::InName => keep_spelling(before, byte, word),
        Stage::InWord => keep_spelling(before, byte, word),
        _ => {}
    }
}

/// Keeps what a byte adds to a value, or begins one.
#[tactic(auto, unfolding(crate::specs::Stages::value_from))]
fn keep_in_value(before: Stage, byte: u8, value: &mut Vec<u8>)
    requires { 4097 ≤ vec_capacity value.old }
    ensures kept { (full : List ℕ) → value.old.items ≡ take 4097 full → value.new.items ≡ take 4097 (value_from before byte full) }
    ensures room { vec_capacity value.old ≤ vec_capacity value.new }
{
    match before {
        Stage::InValue => keep(byte, VALUE_KEPT, value),
        Stage::AfterBackslash => {
            if byte == b'"' || byte == b'\\' {
                keep(byte, VALUE_KEPT, value);
                return;
            }
            keep(b'\\', VALUE_KEPT, value);
            keep(byte, VALUE_KEPT, value);
        }
        _ => value.clear(),
    }
}

/// Keeps what a byte adds to a value, if it is one of a value.
#[tactic(auto, unfolding(crate::specs::Stages::grown_value))]
fn keep_value(before: Stage, now: Stage, byte: u8, value: &mut Vec<u8>)
    requires { 4097 ≤ vec_capacity value.old }
    ensures kept { (full : List ℕ) → value.old.items ≡ take 4097 full → value.new.items ≡ take 4097 (grown_value before now byte full) }
    ensures room { vec_capacity value.old ≤ vec_capacity value.new }
{
    match now {
        Stage::InValue => keep_in_value(before, byte, value),
        _ => {}
    }
}

/// Begins a word.
fn begin_word(byte: u8, word: &mut Vec<u8>)
    requires { 255 ≤ vec_capacity word.old }
    ensures kept { word.new.items ≡ byte ∷ [] }
    ensures room { vec_capacity word.old ≤ vec_capacity word.new }
{
    word.clear();
    keep(byte, WORD_KEPT, word);
}

/// Whether a line begins behind a byte that belongs to a piece.
#[tactic(auto, unfolding(crate::specs::Stages::begins_line))]
fn line_begins(now: Stage, byte: u8) -> bool
    ensures { result ≡ begins_line now byte }
{
    match now {
        Stage::Marked => true,
        _ => !Class::InLine.is_of(byte),
    }
}

impl Lexer {
    /// A lexer before the first byte of a text. It takes the room for a name or a word of 255 bytes and for a value here, and
    /// the only error is want of memory.
    pub fn new(alloc: Global) -> Result<Lexer, NoMemory>
        ensures { IfOk result (λ lexer. lexer ≡ record { fed = []; ended = false }) }
    {
        let word = Vec::with_capacity(alloc, WORD_KEPT)?;
        let value = Vec::with_capacity(alloc, VALUE_KEPT)?;
        Ok(Lexer {
            alloc,
            fed: History::new(),
            stage: Stage::Start,
            start: 0,
            start_line: 1,
            at: 0,
            feeds: 0,
            first: true,
            word,
            value,
            ended: false,
        })
    }

    /// Whether the next byte is the first of its line.
    pub fn is_at_line(&self) -> bool
        ensures { result ≡ ends_line self.now.fed }
    {
        self.first
    }

    /// Takes the next byte, and appends the tokens that are settled with it: those of the pieces that end before it. The
    /// only error is want of memory, which leaves the lexer and `out` as they were.
    pub fn feed(&mut self, byte: u8, out: &mut Vec<Placed>) -> Result<(), NoMemory>
        requires open { self.old.ended ≡ false }
        requires room { length self.old.fed < 2 ^ 64 - 1 }
        ensures fed { OnOk result (self.new.fed ≡ self.old.fed ++ byte ∷ []) }
        ensures tokens { OnOk result (Appends out.old.items out.new.items (settled_tokens self.old.fed) (settled_tokens self.new.fed)) }
        ensures open { self.new.ended ≡ false }
        ensures unchanged { OnErr result ((self.new ≡ self.old) × (out.new.items ≡ out.old.items)) }
    {
        match what_follows(self.stage, byte) {
            Next::Stays(now) => {
                keep_word(self.stage, now, byte, &mut self.word);
                keep_value(self.stage, now, byte, &mut self.value);
                self.first = line_begins(now, byte);
                self.stage = now;
                self.at += 1;
                self.feeds = feeds_with(self.feeds, byte);
                self.fed.push(Snapshot::of(&byte));
                Ok(())
            }
            Next::Over => {
                let at = Extent {
                    start: self.start,
                    end: self.at,
                    line: self.start_line,
                };
                say(self.alloc, self.stage, at, &self.word, &self.value, out)?;
                self.stage = what_begins(self.first, byte);
                begin_word(byte, &mut self.word);
                self.start = self.at;
                self.start_line = self.feeds + 1;
                self.first = !Class::InLine.is_of(byte);
                self.at += 1;
                self.feeds = feeds_with(self.feeds, byte);
                self.fed.push(Snapshot::of(&byte));
                Ok(())
            }
        }
    }

    /// Takes the end of the text, and appends the last tokens. The only error is want of memory, which leaves the lexer and
    /// `out` as they were.
    pub fn end(&mut self, out: &mut Vec<Placed>) -> Result<(), NoMemory>
        requires open { self.old.ended ≡ false }
        ensures fed { self.new.fed ≡ self.old.fed }
        ensures tokens { OnOk result (Appends out.old.items out.new.items (settled_tokens self.old.fed) (tokens self.old.fed)) }
        ensures ended { OnOk result (self.new.ended ≡ true) }
        ensures unchanged { OnErr result ((self.new ≡ self.old) × (out.new.items ≡ out.old.items)) }
    {
        let at = Extent {
            start: self.start,
            end: self.at,
            line: self.start_line,
        };
        say(self.alloc, self.stage, at, &self.word, &self.value, out)?;
        self.ended = true;
        Ok(())
    }
}
