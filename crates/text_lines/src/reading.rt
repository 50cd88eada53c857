//! The reader of lines.

ghost use Rattle.std.specs.Prelude.{if◌then◌else◌, ◌≡◌, ◌+◌, ◌-◌, ◌<◌, ◌≤◌, ◌↔◌, ℕ, List, [], true, false, length, take, drop, slice_get, is_err, is_some, OnOk, OnErr, IfOk, IfSome};
ghost use Rattle.std.specs.declared.result.Result.TheVariants.{Ok, Err};
ghost use Rattle.std.specs.declared.option.Option.TheVariants.{Some, None};
ghost use Rattle.std.specs.List.{prefix_len};
ghost use Rattle.std.specs.Io.KnownBytes.{IsAtEnd};
ghost use Rattle.cha_list.specs.declared.classes.Class.TheVariants.{NotLineFeed};
ghost use Rattle.cha_list.specs.Bytes.{in_class};
ghost use Rattle.cha_outside.specs.Faults.{Rose};
ghost use Rattle.cha_outside.specs.Gathering.{Gathers};
ghost use Rattle.text_lines.specs.Lines.{text_lines, settled_lines};
ghost use Rattle.text_lines.specs.Reading.{TookNoMore, found_one, gives_line};

use crate::lines::{TextLine, without_return};
use crate::pieces::{Filled, OpenText, line_of};
use cha_list::NoMemory;
use cha_outside::{MOST_BYTES, ReadEnd, Source};
use std::alloc::Global;
use std::marker::Model;

/// How far a reader came.
#[derive(Drop)]
pub struct Lines {
    /// The line that is being read, and what was read behind it.
    pub text: OpenText,
    /// The number of that line, from 1.
    pub number: u64,
    /// How many lines were given.
    pub given: usize,
    /// Whether the source has ended.
    pub ended: bool,
    /// Whether no line is left.
    pub finished: bool,
}

/// A reader of the lines of a source that are not blank, one at a time. It keeps one line, and the rest of the piece that was read last.
#[derive(Drop)]
pub struct LineReader {
    alloc: Global,
    lines: Lines,
    failed: bool,
}

/// Contracts see the bytes taken, the number of lines given, whether the source has ended, and whether a call failed.
impl Model for LineReader {
    ghost use Rattle.std.specs.Prelude.{◌≡◌, false};
    ghost use Rattle.text_lines.specs.Reading.{ReaderState};
    ghost use Rattle.text_lines.specs.Keeping.{taken_by, IsHeldBy, WaitsAt, IsSpentAt};

    ghost Value = { ReaderState };

    ghost view = { λ s. record { taken = taken_by s.lines; given = s.lines.given; ended = s.lines.ended; failed = s.failed } };

    ghost invariant = { λ s. s.failed ≡ false → IsHeldBy s.lines × WaitsAt s.lines × IsSpentAt s.lines };
}

/// How many lines were found: one or none.
fn one_if(found: &Option<TextLine>) -> usize
    ensures { result ≡ (if is_some found.now then 1 else 0) }
{
    match found {
        Some(_) => 1,
        None => 0,
    }
}

impl Lines {
    ghost use Rattle.text_lines.specs.Keeping.{taken_by, IsHeldBy, WaitsAt, IsSpentAt, HasNoFeed};

    /// Takes the line that a line feed at this place ends, and gives it unless it is blank.
    fn take_line(&mut self, alloc: Global, end: usize) -> Result<Option<TextLine>, NoMemory>
        requires held { IsHeldBy self.old }
        requires open { self.old.finished ≡ false }
        requires feed { end ≡ self.old.text.used + prefix_len (in_class NotLineFeed) (drop self.old.text.used self.old.text.piece.items) }
        requires inside { end < length self.old.text.piece.items }
        ensures taken { taken_by self.new ≡ taken_by self.old }
        ensures same { (self.new.ended ≡ self.old.ended) × (self.new.finished ≡ false) × (self.new.text.piece ≡ self.old.text.piece) × (self.new.text.taken ≡ self.old.text.taken) }
        ensures held { OnOk result (IsHeldBy self.new) }
        ensures used { OnOk result (self.old.text.used < self.new.text.used) }
        ensures given { self.new.given ≡ (if found_one result then self.old.given + 1 else self.old.given) }
        ensures line { IfOk result (λ found. IfSome found (λ line. slice_get (text_lines (taken_by self.old)) self.old.given ≡ Some line)) }
        ensures settled { IfOk result (λ found. IfSome found (λ line. self.old.given < settled_lines (taken_by self.old))) }
    {
        let found = line_of(alloc, self.number, without_return(self.text.line(end)))?;
        self.text.used = end + 1;
        self.text.scanned = end + 1;
        self.number += 1;
        self.given += one_if(&found);
        Ok(found)
    }

    /// The next line that a line feed ends and that is not blank, of the bytes that are kept.
    fn next_ended(&mut self, alloc: Global) -> Result<Option<TextLine>, NoMemory>
        requires held { IsHeldBy self.old }
        ensures taken { taken_by self.new ≡ taken_by self.old }
        ensures same { self.new.ended ≡ self.old.ended }
        ensures held { OnOk result (IsHeldBy self.new) }
        ensures given { self.new.given ≡ (if found_one result then self.old.given + 1 else self.old.given) }
        ensures line { IfOk result (λ found. IfSome found (λ line. slice_get (text_lines (taken_by self.old)) self.old.given ≡ Some line)) }
        ensures settled { IfOk result (λ found. IfSome found (λ line. self.old.given < settled_lines (taken_by self.old))) }
        ensures none { result ≡ Ok None → HasNoFeed self.new }
    {
        loop {
            let Some(end) = self.text.find_end() else {
                return Ok(None);
            };
            let found = self.take_line(alloc, end)?;
            if found.is_some() {
                return Ok(found);
            }
        }
    }

    /// The line that the end of the source ends, if there is one that is not blank.
    fn take_last(&mut self, alloc: Global) -> Result<Option<TextLine>, ReadEnd>
        requires held { IsHeldBy self.old }
        requires ended { self.old.ended ≡ true }
        requires none { HasNoFeed self.old }
        ensures taken { taken_by self.new ≡ taken_by self.old }
        ensures same { self.new.ended ≡ self.old.ended }
        ensures held { OnOk result (IsHeldBy self.new) }
        ensures given { self.new.given ≡ (if gives_line result then self.old.given + 1 else self.old.given) }
        ensures line { IfOk result (λ found. IfSome found (λ line. slice_get (text_lines (taken_by self.old)) self.old.given ≡ Some line)) }
        ensures refused { OnErr result (result ≡ Err ReadEnd.NoMemory) }
        ensures none { result ≡ Ok None → length (text_lines (taken_by self.old)) ≤ self.old.given }
    {
        let end = self.text.piece.as_slice().len();
        let Ok(found) = line_of(alloc, self.number, self.text.line(end)) else {
            return Err(ReadEnd::NoMemory);
        };
        self.text.used = end;
        self.text.scanned = end;
        self.finished = true;
        self.given += one_if(&found);
        Ok(found)
    }

    /// Reads on.
    fn refill<S: Source>(&mut self, source: &mut S) -> Result<Filled, ReadEnd>
        requires held { IsHeldBy self.old }
        requires open { self.old.ended ≡ false }
        requires no_feed { HasNoFeed self.old }
        ensures bytes { Gathers (S.left source.old) (S.left source.new) (taken_by self.old) (taken_by self.new) }
        ensures same { (self.new.given ≡ self.old.given) × (self.new.ended ≡ false) }
        ensures held { OnOk result (IsHeldBy self.new) }
        ensures waits { WaitsAt self.new }
        ensures first { take self.old.given (text_lines (taken_by self.new)) ≡ take self.old.given (text_lines (taken_by self.old)) }
        ensures more { result ≡ Ok Filled.More → length (taken_by self.old) < length (taken_by self.new) }
        ensures end { result ≡ Ok Filled.End → IsAtEnd (S.left source.new) × HasNoFeed self.new }
        ensures none_settled { result ≡ Ok Filled.End → settled_lines (taken_by self.new) ≤ self.old.given }
        ensures fault { result ≡ Err ReadEnd.ReadFault → Rose (S.faults source.old) (S.faults source.new) × (settled_lines (taken_by self.new) ≤ self.old.given) }
        ensures too_long { (result ≡ Err ReadEnd.TooLong) ↔ (MOST_BYTES < length (taken_by self.new)) }
        ensures few { length (taken_by self.new) ≤ MOST_BYTES + 4096 }
        ensures later { S.faults source.old ≤ S.faults source.new }
    {
        self.text.refill(source)
    }

    /// The next line that is not blank, or None where all were given.
    fn next<S: Source>(
        &mut self,
        alloc: Global,
        source: &mut S,
    ) -> Result<Option<TextLine>, ReadEnd>
        requires held { IsHeldBy self.old }
        requires waits { WaitsAt self.old }
        requires spent { IsSpentAt self.old }
        ensures bytes { Gathers (S.left source.old) (S.left source.new) (taken_by self.old) (taken_by self.new) }
        ensures held { OnOk result (IsHeldBy self.new × WaitsAt self.new) }
        ensures line { IfOk result (λ found. IfSome found (λ line. slice_get (text_lines (taken_by self.new)) self.old.given ≡ Some line)) }
        ensures given { self.new.given ≡ (if gives_line result then self.old.given + 1 else self.old.given) }
        ensures none { result ≡ Ok None → (self.new.ended ≡ true) × (length (text_lines (taken_by self.new)) ≤ self.old.given) }
        ensures first { take self.old.given (text_lines (taken_by self.new)) ≡ take self.old.given (text_lines (taken_by self.old)) }
        ensures still { self.old.ended ≡ true → taken_by self.new ≡ taken_by self.old }
        ensures no_more_reads { self.old.ended ≡ true → (source.new ≡ source.old) × (self.new.ended ≡ true) }
        ensures end { self.old.ended ≡ false → self.new.ended ≡ true → IsAtEnd (S.left source.new) }
        ensures read_fault { result ≡ Err ReadEnd.ReadFault → Rose (S.faults source.old) (S.faults source.new) }
        ensures before_end { self.new.ended ≡ false → IfOk result (λ found. IfSome found (λ line. self.old.given < settled_lines (taken_by self.new))) }
        ensures no_more { (piece : List ℕ) × TookNoMore (taken_by self.new) piece self.old.given }
        ensures none_settled { self.new.ended ≡ true → settled_lines (taken_by self.new) ≤ self.old.given }
        ensures at_hand { self.old.given < settled_lines (taken_by self.old) → source.new ≡ source.old }
        ensures settled { result ≡ Err ReadEnd.ReadFault → settled_lines (taken_by self.new) ≤ self.old.given }
        ensures too_long { (result ≡ Err ReadEnd.TooLong) ↔ (MOST_BYTES < length (taken_by self.new)) }
        ensures few { length (taken_by self.new) ≤ MOST_BYTES + 4096 }
        ensures later { S.faults source.old ≤ S.faults source.new }
    {
        loop {
            match self.next_ended(alloc) {
                Ok(Some(line)) => return Ok(Some(line)),
                Ok(None) => {}
                Err(_) => return Err(ReadEnd::NoMemory),
            }
            if self.ended {
                return self.take_last(alloc);
            }
            match self.refill(source) {
                Ok(Filled::More) => {}
                Ok(Filled::End) => {
                    self.ended = true;
                    return self.take_last(alloc);
                }
                Err(end) => return Err(end),
            }
        }
    }
}

impl LineReader {
    /// A reader that has taken nothing. It takes no memory.
    pub fn new(alloc: Global) -> LineReader
        ensures { result ≡ record { taken = []; given = 0; ended = false; failed = false } }
    {
        LineReader {
            alloc,
            lines: Lines {
                text: OpenText::new(alloc),
                number: 1,
                given: 0,
                ended: false,
                finished: false,
            },
            failed: false,
        }
    }

    /// The next line that is not blank, or None where the source has ended and all its lines were given.
    ///
    /// Nothing is read where a line is at hand that a line feed ends, and no further piece, of at most 65,536 bytes, than the line needs,
    /// whatever the answer: a line is given once the line feed behind it was taken. The end of the source too is taken only where each
    /// line that a line feed ends was given before. The lines given are the first lines of the bytes taken, in order.
    ///
    /// `ReadFault` comes only where the source failed in this call, and each line that a line feed ends in the bytes taken was given
    /// before; `TooLong` comes where the source gave more than 268,435,456 bytes (at most 4,096 more are taken), and `NoMemory` where the
    /// allocator refused memory. The time of all calls together grows as the number of bytes.
    pub fn next<S: Source>(&mut self, source: &mut S) -> Result<Option<TextLine>, ReadEnd>
        requires { self.old.failed ≡ false }
        ensures bytes { Gathers (S.left source.old) (S.left source.new) self.old.taken self.new.taken }
        ensures line { IfOk result (λ found. IfSome found (λ line. slice_get (text_lines self.new.taken) self.old.given ≡ Some line)) }
        ensures given { self.new.given ≡ (if gives_line result then self.old.given + 1 else self.old.given) }
        ensures none { result ≡ Ok None → (self.new.ended ≡ true) × (length (text_lines self.new.taken) ≤ self.old.given) }
        ensures first { take self.old.given (text_lines self.new.taken) ≡ take self.old.given (text_lines self.old.taken) }
        ensures still { self.old.ended ≡ true → self.new.taken ≡ self.old.taken }
        ensures no_more_reads { self.old.ended ≡ true → (source.new ≡ source.old) × (self.new.ended ≡ true) }
        ensures end { self.old.ended ≡ false → self.new.ended ≡ true → IsAtEnd (S.left source.new) }
        ensures read_fault { result ≡ Err ReadEnd.ReadFault → Rose (S.faults source.old) (S.faults source.new) }
        ensures before_end { self.new.ended ≡ false → IfOk result (λ found. IfSome found (λ line. self.old.given < settled_lines self.new.taken)) }
        ensures no_more { (piece : List ℕ) × TookNoMore self.new.taken piece self.old.given }
        ensures none_settled { self.new.ended ≡ true → settled_lines self.new.taken ≤ self.old.given }
        ensures at_hand { self.old.given < settled_lines self.old.taken → source.new ≡ source.old }
        ensures settled { result ≡ Err ReadEnd.ReadFault → settled_lines self.new.taken ≤ self.old.given }
        ensures too_long { (result ≡ Err ReadEnd.TooLong) ↔ (MOST_BYTES < length self.new.taken) }
        ensures few { length self.new.taken ≤ MOST_BYTES + 4096 }
        ensures failed { self.new.failed ≡ is_err result }
        ensures later { S.faults source.old ≤ S.faults source.new }
    {
        let found = self.lines.next(self.alloc, source);
        self.failed = found.is_err();
        found
    }

    /// The next line that is not blank and that a line feed ends in what was taken, or None where there is none. It reads nothing.
    ///
    /// A last line that no line feed ends is for `next` alone: once the source has ended, None comes here. The lines given by both calls
    /// are the first lines of the bytes taken, in order. The only error is want of memory; no call may follow it.
    pub fn ready(&mut self) -> Result<Option<TextLine>, NoMemory>
        requires { self.old.failed ≡ false }
        ensures same { (self.new.taken ≡ self.old.taken) × (self.new.ended ≡ self.old.ended) }
        ensures line { IfOk result (λ found. IfSome found (λ line. slice_get (text_lines self.new.taken) self.old.given ≡ Some line)) }
        ensures given { self.new.given ≡ (if found_one result then self.old.given + 1 else self.old.given) }
        ensures settled { IfOk result (λ found. IfSome found (λ line. self.old.given < settled_lines self.new.taken)) }
        ensures open { self.old.ended ≡ false → result ≡ Ok None → settled_lines self.new.taken ≤ self.old.given }
        ensures ended { self.old.ended ≡ true → result ≡ Ok None }
        ensures no_more { (piece : List ℕ) × TookNoMore self.new.taken piece self.old.given }
        ensures none_settled { self.new.ended ≡ true → settled_lines self.new.taken ≤ self.old.given }
        ensures few { length self.new.taken ≤ MOST_BYTES }
        ensures failed { self.new.failed ≡ is_err result }
    {
        if self.lines.ended {
            return Ok(None);
        }
        let found = self.lines.next_ended(self.alloc);
        self.failed = found.is_err();
        found
    }
}
