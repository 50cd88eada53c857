//! The splitter of a text that comes in pieces.

ghost use Rattle.std.specs.Prelude.{if◌then◌else◌, ◌≡◌, ◌+◌, ◌<◌, ◌≤◌, ◌++◌, [], true, false, length, take, slice_get, is_err, OnErr, OnOk, IfOk, IfSome};
ghost use Rattle.std.specs.declared.result.Result.TheVariants.{Ok, Err};
ghost use Rattle.std.specs.declared.option.Option.TheVariants.{Some, None};
ghost use Rattle.pgn_games.specs.Games.{placed_games, is_closed as is_closed_text};
ghost use Rattle.pgn_games.specs.Settling.{settled_games};

use crate::cutter::Cutter;
use crate::gathering::Wholeness;
use crate::played::PlacedGame;
use cha_list::NoMemory;
use cha_outside::MOST_BYTES;
use std::alloc::Global;
use std::marker::Model;

/// Cuts a text that comes in pieces into games. Whoever calls hands in the pieces and may keep their bytes; the splitter keeps what
/// one game says, the tokens of one byte, and a copy of the last piece.
///
/// Calls go in turns: `put` a piece, then `next` until it gives None, and so on; behind the last piece `end`, then `next` until it
/// gives None again.
#[derive(Drop)]
pub struct Splitter {
    alloc: Global,
    cutter: Cutter,
    spent: bool,
    ended: bool,
    failed: bool,
}

/// Contracts see the bytes taken, the number of games given, whether the last piece is spent, whether the text has ended, and whether
/// a call failed.
impl Model for Splitter {
    ghost use Rattle.pgn_games.specs.Splitting.{SplitterState};
    ghost use Rattle.pgn_games.specs.Keeping.{taken_by, IsSplit};

    ghost Value = { SplitterState };

    ghost view = { λ s. record { taken = taken_by s.cutter; given = s.cutter.given; spent = s.spent; ended = s.ended; failed = s.failed } };

    ghost invariant = { λ s. IsSplit s.cutter s.spent s.ended s.failed };
}

impl Splitter {
    ghost use Rattle.pgn_games.specs.Keeping.{found_one};

    /// A splitter that has taken nothing. The only error is want of memory.
    pub fn new(alloc: Global) -> Result<Splitter, NoMemory>
        ensures { IfOk result (λ splitter. splitter ≡ record { taken = []; given = 0; spent = true; ended = false; failed = false }) }
    {
        let cutter = Cutter::new(alloc)?;
        Ok(Splitter {
            alloc,
            cutter,
            spent: true,
            ended: false,
            failed: false,
        })
    }

    /// Whether the text that was taken is closed, once it has ended.
    pub fn is_closed(&self) -> bool
        ensures { self.now.ended ≡ true → result ≡ is_closed_text self.now.taken }
    {
        self.cutter.closed
    }

    /// Takes the next piece of the text, of any size; the text has at most 268,435,456 bytes. The last piece is spent: `next` gave
    /// None. The only error is want of memory; no call may follow it.
    pub fn put(&mut self, piece: &[u8]) -> Result<(), NoMemory>
        requires goes_on { (self.old.failed ≡ false) × (self.old.ended ≡ false) × (self.old.spent ≡ true) }
        requires few { length self.old.taken + length piece.now ≤ MOST_BYTES }
        ensures taken { OnOk result (self.new.taken ≡ self.old.taken ++ piece.now) }
        ensures err { OnErr result (self.new.taken ≡ self.old.taken) }
        ensures same { (self.new.given ≡ self.old.given) × (self.new.ended ≡ self.old.ended) × (self.new.spent ≡ false) }
        ensures first { take self.old.given (placed_games self.new.taken) ≡ take self.old.given (placed_games self.old.taken) }
        ensures failed { self.new.failed ≡ is_err result }
    {
        self.spent = false;
        match self.cutter.take_piece(piece) {
            Ok(()) => Ok(()),
            Err(refused) => {
                self.failed = true;
                Err(refused)
            }
        }
    }

    /// The next game that is whole, or None where none is left in what was taken.
    ///
    /// Before the end of the text a game is whole once the byte behind its last token was taken; such a game is settled, and None
    /// comes where each settled game was given. Behind it, what is left is a game too, and None comes where all games were given.
    /// The games given are the first games of the bytes taken, in order. The only error is want of memory; no call may follow it.
    /// The time of all calls together grows as the number of bytes.
    pub fn next(&mut self) -> Result<Option<PlacedGame>, NoMemory>
        requires { self.old.failed ≡ false }
        ensures same { (self.new.taken ≡ self.old.taken) × (self.new.ended ≡ self.old.ended) }
        ensures game { IfOk result (λ found. IfSome found (λ game. slice_get (placed_games self.new.taken) self.old.given ≡ Some game)) }
        ensures given { self.new.given ≡ (if found_one result then self.old.given + 1 else self.old.given) }
        ensures settled { self.old.ended ≡ false → IfOk result (λ found. IfSome found (λ game. self.old.given < settled_games self.new.taken)) }
        ensures open { self.old.ended ≡ false → result ≡ Ok None → (settled_games self.new.taken ≤ self.old.given) × (self.new.spent ≡ true) }
        ensures none { self.old.ended ≡ true → result ≡ Ok None → length (placed_games self.new.taken) ≤ self.old.given }
        ensures few { length self.new.taken ≤ MOST_BYTES }
        ensures failed { self.new.failed ≡ is_err result }
    {
        if !self.ended {
            match self.cutter.feed_piece() {
                Ok(Wholeness::Whole) => {
                    self.spent = false;
                    return Ok(Some(self.cutter.give(self.alloc)));
                }
                Ok(Wholeness::Open) => {
                    self.spent = true;
                    return Ok(None);
                }
                Err(refused) => {
                    self.failed = true;
                    return Err(refused);
                }
            }
        }
        match self.cutter.give_last(self.alloc) {
            Ok(found) => Ok(found),
            Err(refused) => {
                self.failed = true;
                Err(refused)
            }
        }
    }

    /// Tells that the text has ended, where its last piece is spent: what is left of it is a game too. The only error is want of
    /// memory; no call may follow it.
    pub fn end(&mut self) -> Result<(), NoMemory>
        requires goes_on { (self.old.failed ≡ false) × (self.old.ended ≡ false) × (self.old.spent ≡ true) }
        ensures same { (self.new.taken ≡ self.old.taken) × (self.new.given ≡ self.old.given) }
        ensures ended { OnOk result (self.new.ended ≡ true) }
        ensures err { OnErr result (self.new.ended ≡ false) }
        ensures failed { self.new.failed ≡ is_err result }
    {
        match self.cutter.close() {
            Ok(()) => {
                self.ended = true;
                Ok(())
            }
            Err(refused) => {
                self.failed = true;
                Err(refused)
            }
        }
    }
}
