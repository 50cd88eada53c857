//! The reader of games.

ghost use Rattle.std.specs.Prelude.{if◌then◌else◌, ◌≡◌, ◌+◌, ◌<◌, ◌≤◌, ◌↔◌, ℕ, List, [], true, false, length, take, slice_get, is_err, IfOk, IfSome, codes};
ghost use Rattle.std.specs.declared.result.Result.TheVariants.{Ok, Err};
ghost use Rattle.std.specs.declared.option.Option.TheVariants.{Some, None};
ghost use Rattle.std.specs.Io.KnownBytes.{IsAtEnd};
ghost use Rattle.cha_outside.specs.Faults.{Rose};
ghost use Rattle.cha_fen.specs.Written.{fen_text};
ghost use Rattle.pgn_games.specs.Games.{opening, placed_games, is_closed as is_closed_text};
ghost use Rattle.pgn_games.specs.Settling.{settled_games};
ghost use Rattle.pgn_games.specs.Keeping.{found_one};
ghost use Rattle.pgn_games.specs.Reading.{Takes, TookNoMore, gives_game};

use crate::cutter::{Advanced, Cutter};
use crate::gathering::Wholeness;
use crate::opening::games_begin_at_the_opening;
use crate::played::PlacedGame;
use cha_list::NoMemory;
use cha_outside::{MOST_BYTES, ReadEnd, Source};
use std::alloc::Global;
use std::marker::Model;

/// A reader of the games of a source, one at a time. It keeps what one game says, the tokens of one byte, and the rest of the
/// piece that was read last: its memory is bounded, whatever the text.
#[derive(Drop)]
pub struct Reader {
    alloc: Global,
    cutter: Cutter,
    room: Vec<u8>,
    ended: bool,
    failed: bool,
}

/// Contracts see the bytes taken, the number of games given, whether the source has ended, and whether a call failed.
impl Model for Reader {
    ghost use Rattle.pgn_games.specs.Reading.{ReaderState};
    ghost use Rattle.pgn_games.specs.Keeping.{taken_by, IsReading};

    ghost Value = { ReaderState };

    ghost view = { λ s. record { taken = taken_by s.cutter; given = s.cutter.given; ended = s.ended; failed = s.failed } };

    ghost invariant = { λ s. IsReading s.cutter s.ended s.failed };
}

impl Reader {
    /// A reader that has taken nothing. The only error is want of memory.
    pub fn new(alloc: Global) -> Result<Reader, NoMemory>
        ensures { IfOk result (λ reader. reader ≡ record { taken = []; given = 0; ended = false; failed = false }) }
    {
        let cutter = Cutter::new(alloc)?;
        Ok(Reader {
            alloc,
            cutter,
            room: Vec::new(alloc),
            ended: false,
            failed: false,
        })
    }

    /// Whether a call of `next` has answered an error. No call may follow it.
    pub fn failed(&self) -> bool
        ensures { result ≡ self.now.failed }
    {
        self.failed
    }

    /// Whether the text that was taken is closed, once its source has ended.
    pub fn is_closed(&self) -> bool
        ensures { self.now.ended ≡ true → result ≡ is_closed_text self.now.taken }
    {
        self.cutter.closed
    }

    /// The next game of a source, or None where the source has ended and all its games were given.
    ///
    /// A game whose tags tell no other position begins at the opening. Nothing is read where a game is at hand that is settled, and no
    /// further piece, of at most 8,388,608 bytes, than the game needs, whatever the answer: a game is given once the byte behind its last
    /// token was taken. The end of the source too is taken only where each game that is settled was given before. The games given are the
    /// first games of the bytes taken, in order.
    ///
    /// `ReadFault` comes only where the source failed in this call, and each game that is settled in the bytes taken was given before;
    /// `TooLong` comes where the source gave more than 268,435,456 bytes (at most 4,096 more are taken), and `NoMemory` where the
    /// allocator refused memory. The time of all calls together grows as the number of bytes.
    pub fn next<S: Source>(&mut self, source: &mut S) -> Result<Option<PlacedGame>, ReadEnd>
        requires { self.old.failed ≡ false }
        ensures bytes { Takes (S.left source.old) (S.left source.new) self.old.taken self.new.taken }
        ensures game { IfOk result (λ found. IfSome found (λ game. slice_get (placed_games self.new.taken) self.old.given ≡ Some game)) }
        ensures opening { fen_text opening ≡ codes "rnbqkbnr/pppppppp/8/8/8/8/PPPPPPPP/RNBQKBNR w KQkq -" }
        ensures given { self.new.given ≡ (if gives_game result then self.old.given + 1 else self.old.given) }
        ensures none { result ≡ Ok None → (self.new.ended ≡ true) × (length (placed_games self.new.taken) ≤ self.old.given) }
        ensures first { take self.old.given (placed_games self.new.taken) ≡ take self.old.given (placed_games self.old.taken) }
        ensures still { self.old.ended ≡ true → self.new.taken ≡ self.old.taken }
        ensures no_more_reads { self.old.ended ≡ true → (source.new ≡ source.old) × (self.new.ended ≡ true) }
        ensures end { self.old.ended ≡ false → self.new.ended ≡ true → IsAtEnd (S.left source.new) }
        ensures read_fault { result ≡ Err ReadEnd.ReadFault → Rose (S.faults source.old) (S.faults source.new) }
        ensures before_end { self.new.ended ≡ false → IfOk result (λ found. IfSome found (λ game. self.old.given < settled_games self.new.taken)) }
        ensures no_more { (piece : List ℕ) × TookNoMore self.new.taken piece self.old.given }
        ensures none_settled { self.new.ended ≡ true → settled_games self.new.taken ≤ self.old.given }
        ensures at_hand { self.old.given < settled_games self.old.taken → source.new ≡ source.old }
        ensures settled { result ≡ Err ReadEnd.ReadFault → settled_games self.new.taken ≤ self.old.given }
        ensures too_long { (result ≡ Err ReadEnd.TooLong) ↔ (MOST_BYTES < length self.new.taken) }
        ensures few { length self.new.taken ≤ MOST_BYTES + 4096 }
        ensures failed { self.new.failed ≡ is_err result }
        ensures later { S.faults source.old ≤ S.faults source.new }
    {
        games_begin_at_the_opening();
        if !self.ended {
            match self.cutter.advance(&mut self.room, source) {
                Ok(Advanced::Whole) => return Ok(Some(self.cutter.give(self.alloc))),
                Ok(Advanced::Ended) => self.ended = true,
                Err(end) => {
                    self.failed = true;
                    return Err(end);
                }
            }
        }
        match self.cutter.give_last(self.alloc) {
            Ok(found) => Ok(found),
            Err(_) => {
                self.failed = true;
                Err(ReadEnd::NoMemory)
            }
        }
    }

    /// The next game that is whole in what was taken, or None where there is none. It reads nothing.
    ///
    /// A game is whole once the byte behind its last token was taken; such a game is settled, and None comes where each settled game
    /// was given. What is left once the source has ended is for `next` alone: from then on None comes here. The games given by both
    /// calls are the first games of the bytes taken, in order. The only error is want of memory; no call may follow it.
    pub fn ready(&mut self) -> Result<Option<PlacedGame>, NoMemory>
        requires { self.old.failed ≡ false }
        ensures same { (self.new.taken ≡ self.old.taken) × (self.new.ended ≡ self.old.ended) }
        ensures game { IfOk result (λ found. IfSome found (λ game. slice_get (placed_games self.new.taken) self.old.given ≡ Some game)) }
        ensures given { self.new.given ≡ (if found_one result then self.old.given + 1 else self.old.given) }
        ensures settled { IfOk result (λ found. IfSome found (λ game. self.old.given < settled_games self.new.taken)) }
        ensures open { self.old.ended ≡ false → result ≡ Ok None → settled_games self.new.taken ≤ self.old.given }
        ensures ended { self.old.ended ≡ true → result ≡ Ok None }
        ensures no_more { (piece : List ℕ) × TookNoMore self.new.taken piece self.old.given }
        ensures none_settled { self.new.ended ≡ true → settled_games self.new.taken ≤ self.old.given }
        ensures few { length self.new.taken ≤ MOST_BYTES }
        ensures failed { self.new.failed ≡ is_err result }
    {
        if self.ended {
            return Ok(None);
        }
        match self.cutter.feed_piece() {
            Ok(Wholeness::Whole) => Ok(Some(self.cutter.give(self.alloc))),
            Ok(Wholeness::Open) => Ok(None),
            Err(refused) => {
                self.failed = true;
                Err(refused)
            }
        }
    }
}
