//! What a reader keeps of its source: the line that is being read, and what was read behind it.

ghost use Rattle.std.specs.Prelude.{◌≡◌, ◌+◌, ◌-◌, ◌∷◌, ◌<◌, ◌≤◌, ◌↔◌, ◌++◌, [], length, take, drop, IfOk, IfSome, IfNone};
ghost use Rattle.std.specs.declared.result.Result.TheVariants.{Ok, Err};
ghost use Rattle.std.specs.List.{prefix_len};
ghost use Rattle.std.specs.Io.KnownBytes.{IsAtEnd};
ghost use Rattle.cha_list.specs.declared.classes.Class.TheVariants.{NotLineFeed};
ghost use Rattle.cha_list.specs.Bytes.{in_class};
ghost use Rattle.cha_outside.specs.Faults.{Rose};
ghost use Rattle.cha_outside.specs.Gathering.{Gathers};
ghost use Rattle.text_lines.specs.Lines.{line_if};

use crate::history::History;
use crate::lines::{TextLine, without_return};
use cha_list::{Class, NoMemory, all_of, run_of, text_of};
use cha_outside::{Got, MOST_BYTES, ReadEnd, Source};
use std::alloc::Global;

/// How many bytes one read asks for, where so many may still be taken.
const PIECE: usize = 65_536;

/// The most bytes that are taken of a source: 4,096 more than a text may have, by which it is seen to be too long.
const MOST_TAKEN: usize = MOST_BYTES + 4096;

/// How many bytes of a line are given.
const KEPT: usize = 4097;

/// What one read gave.
#[derive(Clone, Copy, Debug, PartialEq, Eq)]
pub enum Filled {
    /// One byte or more.
    More,
    /// The end of the source.
    End,
}

/// The bytes of a source from the line on that is being read.
#[derive(Drop)]
pub struct OpenText {
    /// The bytes before the piece.
    pub before: History,
    /// The bytes that are kept.
    pub piece: Vec<u8>,
    /// How many of them belong to lines that ended.
    pub used: usize,
    /// The place in `piece` up to which no line feed stands behind those bytes.
    pub scanned: usize,
    /// How many bytes were taken of the source.
    pub taken: usize,
    /// The room that a piece is read into: it grows once, and serves again.
    pub room: Vec<u8>,
}

/// A line that is not blank, under its number.
#[tactic(auto, unfolding(crate::specs::Lines::line_if))]
pub fn line_of(alloc: Global, number: u64, line: &[u8]) -> Result<Option<TextLine>, NoMemory>
    ensures some { IfOk result (λ found. IfSome found (λ given. line_if number line.now ≡ given ∷ [])) }
    ensures none { IfOk result (λ found. IfNone found (line_if number line.now ≡ [])) }
{
    if all_of(Class::Blank, line) {
        return Ok(None);
    }
    let size = line.len().min(KEPT);
    let text = text_of(alloc, line.split_at(size).0)?;
    Ok(Some(TextLine { number, text }))
}

impl OpenText {
    /// No byte. It takes no memory.
    pub fn new(alloc: Global) -> OpenText
        ensures empty { (result.before ≡ []) × (result.piece.items ≡ []) }
        ensures zero { (result.used ≡ 0) × (result.scanned ≡ 0) × (result.taken ≡ 0) }
    {
        OpenText {
            before: History::new(),
            piece: Vec::new(alloc),
            used: 0,
            scanned: 0,
            taken: 0,
            room: Vec::new(alloc),
        }
    }

    /// The place in the piece of the line feed that ends the line, or None where it has not come yet.
    pub fn find_end(&mut self) -> Option<usize>
        requires inside { (self.old.used ≤ self.old.scanned) × (self.old.scanned ≤ length self.old.piece.items) }
        requires no_feed { self.old.scanned ≤ self.old.used + prefix_len (in_class NotLineFeed) (drop self.old.used self.old.piece.items) }
        ensures same { (self.new.before ≡ self.old.before) × (self.new.piece ≡ self.old.piece) × (self.new.used ≡ self.old.used) × (self.new.taken ≡ self.old.taken) }
        ensures scanned { self.new.scanned ≡ self.old.used + prefix_len (in_class NotLineFeed) (drop self.old.used self.old.piece.items) }
        ensures some { IfSome result (λ end. (end ≡ self.new.scanned) × (end < length self.old.piece.items)) }
        ensures none { IfNone result (self.new.scanned ≡ length self.old.piece.items) }
    {
        let rest = self.piece.as_slice().split_at(self.scanned).1;
        let end = self.scanned + run_of(Class::NotLineFeed, rest);
        self.scanned = end;
        if end == self.piece.len() {
            return None;
        }
        Some(end)
    }

    /// The bytes of the line, up to this place in the piece.
    pub fn line(&self, end: usize) -> &[u8]
        requires { (self.now.used ≤ end) × (end ≤ length self.now.piece.items) }
        ensures { result.now ≡ take (end - self.now.used) (drop self.now.used self.now.piece.items) }
    {
        let (line, _behind) = self.piece.as_slice().split_at(end);
        line.split_at(self.used).1
    }

    /// Lets the bytes go that are used.
    fn let_go(&mut self)
        requires inside { (self.old.used ≤ self.old.scanned) × (self.old.scanned ≤ length self.old.piece.items) }
        ensures before { self.new.before ≡ self.old.before ++ take self.old.used self.old.piece.items }
        ensures piece { self.new.piece.items ≡ drop self.old.used self.old.piece.items }
        ensures used { self.new.used ≡ 0 }
        ensures scanned { self.new.scanned + self.old.used ≡ self.old.scanned }
        ensures taken { self.new.taken ≡ self.old.taken }
    {
        self.before.push(&self.piece, self.used);
        let left = self.piece.len() - self.used;
        self.piece.rotate_left(self.used);
        self.piece.truncate(left);
        self.scanned -= self.used;
        self.used = 0;
    }

    /// Reads on behind the bytes that are kept. It asks for 65,536 bytes, or for as many as may still be taken where those are fewer.
    pub fn refill<S: Source>(&mut self, source: &mut S) -> Result<Filled, ReadEnd>
        requires inside { (self.old.used ≤ self.old.scanned) × (self.old.scanned ≤ length self.old.piece.items) }
        requires few { self.old.taken ≤ MOST_BYTES }
        ensures bytes { Gathers (S.left source.old) (S.left source.new) (drop self.old.used self.old.piece.items) self.new.piece.items }
        ensures few_more { length self.new.piece.items ≤ length (drop self.old.used self.old.piece.items) + 65536 }
        ensures before { self.new.before ≡ self.old.before ++ take self.old.used self.old.piece.items }
        ensures used { self.new.used ≡ 0 }
        ensures scanned { self.new.scanned + self.old.used ≡ self.old.scanned }
        ensures taken { self.new.taken + length (drop self.old.used self.old.piece.items) ≡ self.old.taken + length self.new.piece.items }
        ensures more { result ≡ Ok Filled.More → length (drop self.old.used self.old.piece.items) < length self.new.piece.items }
        ensures end { result ≡ Ok Filled.End → IsAtEnd (S.left source.new) × (self.new.piece.items ≡ drop self.old.used self.old.piece.items) }
        ensures fault { result ≡ Err ReadEnd.ReadFault → Rose (S.faults source.old) (S.faults source.new) × (self.new.piece.items ≡ drop self.old.used self.old.piece.items) }
        ensures too_long { (result ≡ Err ReadEnd.TooLong) ↔ (MOST_BYTES < self.new.taken) }
        ensures few { self.new.taken ≤ MOST_BYTES + 4096 }
        ensures later { S.faults source.old ≤ S.faults source.new }
    {
        self.let_go();
        let size = PIECE.min(MOST_TAKEN - self.taken);
        let (Ok(()), Ok(())) = (self.room.resize(size, 0), self.piece.try_reserve(size)) else {
            return Err(ReadEnd::NoMemory);
        };
        match source.read(self.room.as_mut_slice()) {
            Got::Bytes(n) => {
                let Ok(()) = self.piece.extend_from_slice(&self.room[..n]) else {
                    unreachable!()
                };
                self.taken += n;
                if self.taken > MOST_BYTES {
                    return Err(ReadEnd::TooLong);
                }
                Ok(Filled::More)
            }
            Got::End => Ok(Filled::End),
            Got::Failed => Err(ReadEnd::ReadFault),
        }
    }
}
