//! What a reader keeps: what one game says, the tokens of one byte, and the rest of the piece that was read last.

ghost use Rattle.std.specs.Prelude.{if◌then◌else◌, ◌≡◌, ◌+◌, ◌-◌, ◌^◌, ◌<◌, ◌≤◌, ◌↔◌, ◌++◌, [], length, take, slice_get, OnErr, OnOk, IfOk, IfSome};
ghost use Rattle.std.specs.declared.result.Result.TheVariants.{Ok, Err};
ghost use Rattle.std.specs.declared.option.Option.TheVariants.{Some, None};
ghost use Rattle.std.specs.Io.KnownBytes.{IsAtEnd};
ghost use Rattle.cha_outside.specs.Faults.{Rose};
ghost use Rattle.pgn_games.specs.Games.{placed_games, placed_game_of, is_closed};
ghost use Rattle.pgn_games.specs.Settling.{settled_games};
ghost use Rattle.pgn_games.specs.Reading.{Takes};

use crate::filling::{Filled, MOST_TAKEN, fill};
use crate::gathering::{Wholeness, gather, gather_any};
use crate::played::PlacedGame;
use crate::summary::Summary;
use crate::token_turns::{Place, is_as_new, led_to};
use cha_list::NoMemory;
use cha_outside::{MOST_BYTES, ReadEnd, Source};
use pgn_lex::{Lexer, Placed};
use std::alloc::Global;

/// How far a cutter came.
#[derive(Clone, Copy, Debug, PartialEq, Eq)]
pub enum Advanced {
    /// Its game is whole.
    Whole,
    /// The source has ended, and all its tokens are there.
    Ended,
}

/// What the game says that is being read, the tokens behind it that the last byte gave, and the rest of a piece of the source.
/// Once the source has ended, `closed` says whether its text is.
#[derive(Drop)]
pub struct Cutter {
    pub lexer: Lexer,
    pub game: Summary,
    pub behind: Vec<Placed>,
    pub place: Place,
    pub piece: Vec<u8>,
    pub used: usize,
    pub given: usize,
    pub taken: usize,
    pub closed: bool,
}

impl Cutter {
    ghost use Rattle.pgn_games.specs.Keeping.{taken_by, IsOpenAt, IsLastAt, IsScannedAt, WaitsAt, HasGame, IsUsedUp, found_one};

    /// A cutter that has taken nothing.
    pub fn new(alloc: Global) -> Result<Cutter, NoMemory>
        ensures open { IfOk result (λ c. IsOpenAt c × IsScannedAt c) }
        ensures nothing { IfOk result (λ c. (taken_by c ≡ []) × (c.given ≡ 0)) }
        ensures waits { IfOk result WaitsAt }
        ensures used_up { IfOk result (λ c. IsUsedUp c) }
    {
        let lexer = Lexer::new(alloc)?;
        Ok(Cutter {
            lexer,
            game: Summary::new(alloc),
            behind: Vec::new(alloc),
            place: Place::Before,
            piece: Vec::new(alloc),
            used: 0,
            given: 0,
            taken: 0,
            closed: false,
        })
    }

    /// Feeds the next byte of the piece.
    fn feed_next(&mut self) -> Result<(), NoMemory>
        requires open { IsOpenAt self.old }
        requires more { self.old.used < length self.old.piece.items }
        ensures taken { taken_by self.new ≡ taken_by self.old }
        ensures same { (self.new.given ≡ self.old.given) × (self.new.taken ≡ self.old.taken) × (self.new.game ≡ self.old.game) × (self.new.place ≡ self.old.place) × (self.new.piece ≡ self.old.piece) }
        ensures open { OnOk result (IsOpenAt self.new × (self.new.used ≡ self.old.used + 1)) }
    {
        let byte = self.piece[self.used];
        self.lexer.feed(byte, &mut self.behind)?;
        self.used += 1;
        Ok(())
    }

    /// Feeds the piece byte by byte, until the game is whole or the piece is used up.
    pub fn feed_piece(&mut self) -> Result<Wholeness, NoMemory>
        requires open { IsOpenAt self.old }
        requires scanned { IsScannedAt self.old }
        ensures taken { taken_by self.new ≡ taken_by self.old }
        ensures same { (self.new.given ≡ self.old.given) × (self.new.taken ≡ self.old.taken) }
        ensures piece { self.new.piece ≡ self.old.piece }
        ensures open { OnOk result (IsOpenAt self.new) }
        ensures whole { result ≡ Ok Wholeness.Whole → HasGame self.new }
        ensures used_up { result ≡ Ok Wholeness.Open → IsScannedAt self.new × (self.new.behind.items ≡ []) × (self.new.used ≡ length self.new.piece.items) }
    {
        loop {
            match gather_any(&mut self.game, &mut self.behind, &mut self.place)? {
                Wholeness::Whole => return Ok(Wholeness::Whole),
                Wholeness::Open => {}
            }
            if self.used == self.piece.len() {
                return Ok(Wholeness::Open);
            }
            self.feed_next()?;
        }
    }

    /// Takes the next piece of the source, which is read into the room, where the last one is used up.
    fn refill<S: Source>(&mut self, room: &mut Vec<u8>, source: &mut S) -> Result<Filled, ReadEnd>
        requires open { IsOpenAt self.old }
        requires used_up { self.old.used ≡ length self.old.piece.items }
        ensures bytes { Takes (S.left source.old) (S.left source.new) (taken_by self.old) (taken_by self.new) }
        ensures same { (self.new.given ≡ self.old.given) × (self.new.lexer ≡ self.old.lexer) × (self.new.game ≡ self.old.game) × (self.new.behind ≡ self.old.behind) × (self.new.place ≡ self.old.place) }
        ensures open { OnOk result (IsOpenAt self.new) }
        ensures piece { (taken_by self.new ≡ taken_by self.old ++ self.new.piece.items) × (length self.new.piece.items ≤ 8388608) }
        ensures more { result ≡ Ok Filled.More → length (taken_by self.old) < length (taken_by self.new) }
        ensures end { result ≡ Ok Filled.End → IsAtEnd (S.left source.new) × (self.new.piece.items ≡ []) }
        ensures fault { result ≡ Err ReadEnd.ReadFault → Rose (S.faults source.old) (S.faults source.new) × (self.new.piece.items ≡ []) }
        ensures too_long { (result ≡ Err ReadEnd.TooLong) ↔ (MOST_BYTES < length (taken_by self.new)) }
        ensures few { length (taken_by self.new) ≤ MOST_BYTES + 4096 }
        ensures later { S.faults source.old ≤ S.faults source.new }
    {
        self.used = 0;
        let filled = match fill(&mut self.piece, room, source, MOST_TAKEN - self.taken) {
            Ok(filled) => filled,
            Err(end) => return Err(end),
        };
        self.taken += self.piece.len();
        if self.taken > MOST_BYTES {
            return Err(ReadEnd::TooLong);
        }
        Ok(filled)
    }

    /// Takes a piece that is handed in, where the last one is used up.
    pub fn take_piece(&mut self, piece: &[u8]) -> Result<(), NoMemory>
        requires open { IsOpenAt self.old }
        requires used_up { self.old.used ≡ length self.old.piece.items }
        requires few { length (taken_by self.old) + length piece.now ≤ MOST_BYTES }
        ensures taken { OnOk result (taken_by self.new ≡ taken_by self.old ++ piece.now) }
        ensures err { OnErr result (taken_by self.new ≡ taken_by self.old) }
        ensures first { OnOk result (take self.old.given (placed_games (taken_by self.new)) ≡ take self.old.given (placed_games (taken_by self.old))) }
        ensures same { (self.new.given ≡ self.old.given) × (self.new.lexer ≡ self.old.lexer) × (self.new.game ≡ self.old.game) × (self.new.behind ≡ self.old.behind) × (self.new.place ≡ self.old.place) }
        ensures open { OnOk result (IsOpenAt self.new) }
    {
        self.used = 0;
        self.piece.clear();
        self.piece.extend_from_slice(piece)?;
        self.taken += piece.len();
        Ok(())
    }

    /// Takes the end of the source.
    fn take_end(&mut self) -> Result<(), NoMemory>
        requires open { IsOpenAt self.old }
        requires scanned { IsScannedAt self.old }
        requires used_up { (self.old.behind.items ≡ []) × (self.old.piece.items ≡ []) }
        ensures taken { taken_by self.new ≡ taken_by self.old }
        ensures given { self.new.given ≡ self.old.given }
        ensures last { OnOk result (IsLastAt self.new × IsScannedAt self.new) }
        ensures closed { OnOk result (self.new.closed ≡ is_closed (taken_by self.new)) }
    {
        self.lexer.end(&mut self.behind)?;
        let place = led_to(self.place, self.behind.as_slice());
        self.closed = is_as_new(self.lexer.is_at_line(), place);
        Ok(())
    }

    /// Takes the end of a text that is handed in, where its last piece is used up.
    pub fn close(&mut self) -> Result<(), NoMemory>
        requires open { IsOpenAt self.old }
        requires scanned { IsScannedAt self.old }
        requires used_up { (self.old.behind.items ≡ []) × (self.old.used ≡ length self.old.piece.items) }
        ensures taken { taken_by self.new ≡ taken_by self.old }
        ensures given { self.new.given ≡ self.old.given }
        ensures last { OnOk result (IsLastAt self.new × IsScannedAt self.new) }
        ensures closed { OnOk result (self.new.closed ≡ is_closed (taken_by self.new)) }
    {
        self.used = 0;
        self.piece.clear();
        self.take_end()
    }

    /// Reads on until the game is whole, or to the end of the source. No piece is read before the last one is used up.
    pub fn advance<S: Source>(
        &mut self,
        room: &mut Vec<u8>,
        source: &mut S,
    ) -> Result<Advanced, ReadEnd>
        requires open { IsOpenAt self.old }
        requires scanned { IsScannedAt self.old }
        requires waits { WaitsAt self.old }
        ensures bytes { Takes (S.left source.old) (S.left source.new) (taken_by self.old) (taken_by self.new) }
        ensures given { self.new.given ≡ self.old.given }
        ensures first { take self.old.given (placed_games (taken_by self.new)) ≡ take self.old.given (placed_games (taken_by self.old)) }
        ensures whole { result ≡ Ok Advanced.Whole → IsOpenAt self.new × HasGame self.new }
        ensures waits { WaitsAt self.new }
        ensures ended { result ≡ Ok Advanced.Ended → IsLastAt self.new × IsScannedAt self.new × IsAtEnd (S.left source.new) }
        ensures none_settled { result ≡ Ok Advanced.Ended → settled_games (taken_by self.new) ≤ self.old.given }
        ensures at_hand { self.old.given < settled_games (taken_by self.old) → source.new ≡ source.old }
        ensures closed { result ≡ Ok Advanced.Ended → self.new.closed ≡ is_closed (taken_by self.new) }
        ensures read_fault { result ≡ Err ReadEnd.ReadFault → Rose (S.faults source.old) (S.faults source.new) × (settled_games (taken_by self.new) ≤ self.old.given) }
        ensures too_long { (result ≡ Err ReadEnd.TooLong) ↔ (MOST_BYTES < length (taken_by self.new)) }
        ensures few { length (taken_by self.new) ≤ MOST_BYTES + 4096 }
        ensures later { S.faults source.old ≤ S.faults source.new }
    {
        loop {
            match self.feed_piece() {
                Ok(Wholeness::Whole) => return Ok(Advanced::Whole),
                Ok(Wholeness::Open) => {}
                Err(_) => return Err(ReadEnd::NoMemory),
            }
            match self.refill(room, source) {
                Ok(Filled::More) => {}
                Ok(Filled::End) => {
                    return match self.take_end() {
                        Ok(()) => Ok(Advanced::Ended),
                        Err(_) => Err(ReadEnd::NoMemory),
                    };
                }
                Err(end) => return Err(end),
            }
        }
    }

    /// Finds whether a game is left, once the source has ended.
    pub fn finish(&mut self) -> Result<Wholeness, NoMemory>
        requires last { IsLastAt self.old }
        requires scanned { IsScannedAt self.old }
        ensures same { (self.new.given ≡ self.old.given) × (self.new.lexer ≡ self.old.lexer) × (self.new.piece ≡ self.old.piece) × (self.new.used ≡ self.old.used) × (self.new.closed ≡ self.old.closed) }
        ensures last { OnOk result (IsLastAt self.new) }
        ensures whole { result ≡ Ok Wholeness.Whole → HasGame self.new }
        ensures open { result ≡ Ok Wholeness.Open → IsScannedAt self.new × (self.new.behind.items ≡ []) }
    {
        gather(&mut self.game, &mut self.behind, &mut self.place)
    }

    /// The game, which makes room for the next one.
    fn take_game(&mut self, alloc: Global) -> PlacedGame
        requires { self.old.given < 2 ^ 64 - 1 }
        ensures game { result ≡ placed_game_of self.old.game }
        ensures emptied { (self.new.game ≡ []) × (self.new.place ≡ Place.Before) × (self.new.given ≡ self.old.given + 1) }
        ensures same { (self.new.lexer ≡ self.old.lexer) × (self.new.behind ≡ self.old.behind) × (self.new.piece ≡ self.old.piece) × (self.new.used ≡ self.old.used) × (self.new.taken ≡ self.old.taken) × (self.new.closed ≡ self.old.closed) }
    {
        let whole = std::mem::replace(&mut self.game, Summary::new(alloc));
        self.place = Place::Before;
        self.given += 1;
        whole.placed_game()
    }

    /// Gives the game that is whole.
    pub fn give(&mut self, alloc: Global) -> PlacedGame
        requires open { IsOpenAt self.old }
        requires whole { HasGame self.old }
        ensures taken { taken_by self.new ≡ taken_by self.old }
        ensures waits { WaitsAt self.old → WaitsAt self.new }
        ensures open { IsOpenAt self.new × IsScannedAt self.new × (self.new.given ≡ self.old.given + 1) }
        ensures game { slice_get (placed_games (taken_by self.old)) self.old.given ≡ Some result }
    {
        self.take_game(alloc)
    }

    /// Gives the next of the games that are left, once the source has ended.
    pub fn give_last(&mut self, alloc: Global) -> Result<Option<PlacedGame>, NoMemory>
        requires last { IsLastAt self.old }
        requires scanned { IsScannedAt self.old }
        ensures taken { taken_by self.new ≡ taken_by self.old }
        ensures closed { self.new.closed ≡ self.old.closed }
        ensures last { OnOk result (IsLastAt self.new × IsScannedAt self.new) }
        ensures given { self.new.given ≡ (if found_one result then self.old.given + 1 else self.old.given) }
        ensures game { IfOk result (λ found. IfSome found (λ game. slice_get (placed_games (taken_by self.old)) self.old.given ≡ Some game)) }
        ensures none { result ≡ Ok None → length (placed_games (taken_by self.old)) ≤ self.old.given }
    {
        match self.finish()? {
            Wholeness::Whole => Ok(Some(self.take_game(alloc))),
            Wholeness::Open => {
                if self.game.is_empty() {
                    return Ok(None);
                }
                Ok(Some(self.take_game(alloc)))
            }
        }
    }
}
