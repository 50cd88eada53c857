//! What has come of a text that is read in pieces: its games, and the bytes that were not written.

ghost use Rattle.std.specs.Prelude.{◌≡◌, ◌+◌, ◌^◌, ◌<◌, ◌≤◌, ◌↔◌, ◌++◌, [], false, true, length, take, drop, OnOk};
ghost use Rattle.std.specs.declared.result.Result.TheVariants.{Ok, Err};
ghost use Rattle.std.specs.Io.KnownBytes.{IsAtEnd};
ghost use Rattle.cha_outside.specs.Faults.{Rose};
ghost use Rattle.cha_outside.specs.Gathering.{Gathers};
ghost use Rattle.pgn_games.specs.Games.{placed_games};
ghost use Rattle.pgn_games.specs.Settling.{settled_games};
ghost use Rattle.pgn_results.specs.Correcting.{between};
ghost use Rattle.pgn_results.specs.Keeping.{IsGoingOn, Waits, arrived};

use cha_list::{NoMemory, Text, text_of};
use cha_outside::{MOST_BYTES, ReadEnd, Source};
use pgn_games::{Filled, MOST_TAKEN, Splitter, fill};
use std::alloc::Global;

/// What has come of a text: its games, and the last of its bytes.
#[derive(Drop)]
pub struct Intake {
    pub alloc: Global,
    /// The games of the text, as far as it has come.
    pub games: Splitter,
    /// The last bytes of the text that have come, those that were not written among them.
    pub kept: Text,
    /// Where the first of these bytes stands in the text.
    pub start: u64,
    /// How many of these bytes were written, from the first on.
    pub written: usize,
    /// What was read and not handed on yet.
    pub piece: Vec<u8>,
    /// The room that a piece is read into.
    pub room: Vec<u8>,
}

impl Intake {
    /// Reads the next piece of a source and hands it on, or finds that the source has ended. No game that is
    /// settled may be left to give. After an error no call may follow.
    pub fn refill<S: Source>(&mut self, source: &mut S) -> Result<Filled, ReadEnd>
        requires open { IsGoingOn self.old false }
        requires spent { self.old.games.spent ≡ true }
        requires needed { settled_games self.old.games.taken ≤ self.old.games.given }
        ensures bytes { Gathers (S.left source.old) (S.left source.new) (arrived self.old) (arrived self.new) }
        ensures written { self.new.start + self.new.written ≡ self.old.start + self.old.written }
        ensures given { self.new.games.given ≡ self.old.games.given }
        ensures first { take self.old.games.given (placed_games (arrived self.new)) ≡ take self.old.games.given (placed_games (arrived self.old)) }
        ensures more { result ≡ Ok Filled.More → IsGoingOn self.new false }
        ensures longer { result ≡ Ok Filled.More → length (arrived self.old) < length (arrived self.new) }
        ensures end { result ≡ Ok Filled.End → IsGoingOn self.new true × IsAtEnd (S.left source.new) }
        ensures read_fault { result ≡ Err ReadEnd.ReadFault → Rose (S.faults source.old) (S.faults source.new) × (arrived self.new ≡ arrived self.old) }
        ensures too_long { (result ≡ Err ReadEnd.TooLong) ↔ (MOST_BYTES < length (arrived self.new)) }
        ensures few { length (arrived self.new) ≤ MOST_BYTES + 4096 }
        ensures waits { Waits (arrived self.new) self.old.games.given }
        ensures later { S.faults source.old ≤ S.faults source.new }
    {
        let most = MOST_TAKEN - self.taken() as usize;
        match fill(&mut self.piece, &mut self.room, source, most) {
            Ok(Filled::More) => {}
            Ok(Filled::End) => {
                return match self.games.end() {
                    Ok(()) => Ok(Filled::End),
                    Err(_) => Err(ReadEnd::NoMemory),
                };
            }
            Err(end) => return Err(end),
        }
        if self.taken() > MOST_BYTES as u64 {
            return Err(ReadEnd::TooLong);
        }
        match self.hand_on() {
            Ok(()) => Ok(Filled::More),
            Err(_) => Err(ReadEnd::NoMemory),
        }
    }

    /// How many bytes have come.
    fn taken(&self) -> u64
        requires { self.now.start + (length self.now.kept + length self.now.piece.items) < 2 ^ 64 }
        ensures { result ≡ self.now.start + (length self.now.kept + length self.now.piece.items) }
    {
        self.start + (self.kept.items().len() + self.piece.len()) as u64
    }

    /// The bytes of the text from one place to another, among those that are kept.
    pub fn bytes_between(&self, start: u64, end: u64) -> &[u8]
        requires whole { self.now.piece.items ≡ [] }
        requires bytes { self.now.kept ≡ drop self.now.start self.now.games.taken }
        requires size { self.now.start + length self.now.kept ≡ length self.now.games.taken }
        requires order { (self.now.start ≤ start) × (start ≤ end) × (end ≤ length self.now.games.taken) }
        ensures { result.now ≡ between start end (arrived self.now) }
    {
        let begin = (start - self.start) as usize;
        let end = (end - self.start) as usize;
        &self.kept.items()[begin..end]
    }

    /// The bytes of the text behind a place, among those that are kept.
    pub fn bytes_behind(&self, place: u64) -> &[u8]
        requires whole { self.now.piece.items ≡ [] }
        requires bytes { self.now.kept ≡ drop self.now.start self.now.games.taken }
        requires size { self.now.start + length self.now.kept ≡ length self.now.games.taken }
        requires order { (self.now.start ≤ place) × (place ≤ length self.now.games.taken) }
        ensures { result.now ≡ drop place (arrived self.now) }
    {
        let begin = (place - self.start) as usize;
        self.kept.items().split_at(begin).1
    }

    /// Keeps the piece that was read, and hands it on. What was written goes.
    fn hand_on(&mut self) -> Result<(), NoMemory>
        requires games { (self.old.games.failed ≡ false) × (self.old.games.ended ≡ false) × (self.old.games.spent ≡ true) }
        requires few { length (arrived self.old) ≤ MOST_BYTES }
        requires size { self.old.start + length self.old.kept ≡ length self.old.games.taken }
        requires some { self.old.written ≤ length self.old.kept }
        ensures arrived { arrived self.new ≡ arrived self.old }
        ensures written { self.new.start + self.new.written ≡ self.old.start + self.old.written }
        ensures given { self.new.games.given ≡ self.old.games.given }
        ensures games { OnOk result ((self.new.games.failed ≡ false) × (self.new.games.ended ≡ false)) }
        ensures handed_on { OnOk result (self.new.piece.items ≡ []) }
        ensures kept { OnOk result (self.new.kept ≡ drop self.old.written self.old.kept ++ self.old.piece.items) }
        ensures start { OnOk result ((self.new.start ≡ self.old.start + self.old.written) × (self.new.written ≡ 0)) }
    {
        if self.written > 0 {
            let left = text_of(self.alloc, self.kept.items().split_at(self.written).1)?;
            self.start += self.written as u64;
            self.written = 0;
            self.kept = left;
        }
        self.kept.append(self.piece.as_slice())?;
        self.games.put(self.piece.as_slice())?;
        self.piece.clear();
        Ok(())
    }
}
