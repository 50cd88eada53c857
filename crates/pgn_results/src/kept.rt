//! A reader of games that keeps the bytes of their text until they are written.

ghost use Rattle.std.specs.Prelude.{if◌then◌else◌, ◌≡◌, ◌+◌, ◌-◌, ◌^◌, ◌<◌, ◌≤◌, ◌↔◌, ℕ, List, [], true, false, length, take, slice_get, is_err, Option, OnOk, IfOk, IfSome};
ghost use Rattle.std.specs.declared.result.Result.TheVariants.{Ok, Err};
ghost use Rattle.std.specs.declared.option.Option.TheVariants.{Some, None};
ghost use Rattle.std.specs.Io.KnownBytes.{IsAtEnd};
ghost use Rattle.cha_outside.specs.Faults.{Rose};
ghost use Rattle.cha_outside.specs.Gathering.{Gathers};
ghost use Rattle.pgn_games.specs.Games.{placed_games, is_closed as is_closed_text};
ghost use Rattle.pgn_games.specs.Keeping.{found_one};
ghost use Rattle.pgn_games.specs.Reading.{TookNoMore, gives_game};
ghost use Rattle.pgn_games.specs.Settling.{settled_games};
ghost use Rattle.pgn_results.specs.Keeping.{piece_of, changed_piece, rest_of};

use crate::intake::Intake;
use crate::replacing::put_with_mark;
use cha_list::{NoMemory, Text, text_of};
use cha_outside::{MOST_BYTES, ReadEnd, Source};
use pgn_games::{Filled, PlacedGame, ResultMark, Span, Splitter};
use std::alloc::Global;
use std::marker::Model;

/// A reader of the games of a source, one at a time, that keeps the bytes of the text until they are written. What it keeps is the game
/// that is being read, with what stands before it, and one piece of the source.
#[derive(Drop)]
pub struct KeptReader {
    intake: Intake,
    /// Whether the source has ended.
    ended: bool,
    /// Whether a call has failed.
    failed: bool,
}

/// Contracts see the bytes taken, how many of them were written, the number of games given, whether the source has ended, and whether a
/// call failed.
impl Model for KeptReader {
    ghost use Rattle.std.specs.Prelude.{◌+◌};
    ghost use Rattle.pgn_results.specs.Keeping.{KeptState, IsKept, arrived};

    ghost Value = { KeptState };

    ghost view = { λ s. record { taken = arrived s.intake; written = s.intake.start + s.intake.written; given = s.intake.games.given; ended = s.ended; failed = s.failed } };

    ghost invariant = { λ s. IsKept s.intake s.ended s.failed };
}

impl KeptReader {
    /// A reader that has taken nothing. The only error is want of memory.
    pub fn new(alloc: Global) -> Result<KeptReader, NoMemory>
        ensures { IfOk result (λ reader. reader ≡ record { taken = []; written = 0; given = 0; ended = false; failed = false }) }
    {
        let games = Splitter::new(alloc)?;
        let intake = Intake {
            alloc,
            games,
            kept: Text::new(alloc),
            start: 0,
            written: 0,
            piece: Vec::new(alloc),
            room: Vec::new(alloc),
        };
        Ok(KeptReader {
            intake,
            ended: false,
            failed: false,
        })
    }

    /// Whether the text that was taken is closed, once its source has ended.
    pub fn is_closed(&self) -> bool
        ensures { self.now.ended ≡ true → self.now.failed ≡ false → result ≡ is_closed_text self.now.taken }
    {
        self.intake.games.is_closed()
    }

    /// The next game of a source, or None where the source has ended and all its games were given. It says and reads what
    /// `pgn_games::Reader::next` does.
    pub fn next<S: Source>(&mut self, source: &mut S) -> Result<Option<PlacedGame>, ReadEnd>
        requires { self.old.failed ≡ false }
        ensures bytes { Gathers (S.left source.old) (S.left source.new) self.old.taken self.new.taken }
        ensures written { self.new.written ≡ self.old.written }
        ensures game { IfOk result (λ found. IfSome found (λ game. slice_get (placed_games self.new.taken) self.old.given ≡ Some game)) }
        ensures given { self.new.given ≡ (if gives_game result then self.old.given + 1 else self.old.given) }
        ensures few_games { IfOk result (λ found. IfSome found (λ game. self.old.given < 2 ^ 62)) }
        ensures none { result ≡ Ok None → (self.new.ended ≡ true) × (length (placed_games self.new.taken) ≤ self.old.given) }
        ensures first { take self.old.given (placed_games self.new.taken) ≡ take self.old.given (placed_games self.old.taken) }
        ensures before_end { self.new.ended ≡ false → IfOk result (λ found. IfSome found (λ game. self.old.given < settled_games self.new.taken)) }
        ensures no_more { (piece : List ℕ) × TookNoMore self.new.taken piece self.old.given }
        ensures none_settled { self.new.ended ≡ true → settled_games self.new.taken ≤ self.old.given }
        ensures at_hand { self.old.given < settled_games self.old.taken → source.new ≡ source.old }
        ensures still { self.old.ended ≡ true → (self.new.taken ≡ self.old.taken) × (self.new.ended ≡ true) }
        ensures no_more_reads { self.old.ended ≡ true → source.new ≡ source.old }
        ensures end { self.old.ended ≡ false → self.new.ended ≡ true → IsAtEnd (S.left source.new) }
        ensures read_fault { result ≡ Err ReadEnd.ReadFault → Rose (S.faults source.old) (S.faults source.new) }
        ensures settled { result ≡ Err ReadEnd.ReadFault → settled_games self.new.taken ≤ self.old.given }
        ensures too_long { (result ≡ Err ReadEnd.TooLong) ↔ (MOST_BYTES < length self.new.taken) }
        ensures few { length self.new.taken ≤ MOST_BYTES + 4096 }
        ensures failed { self.new.failed ≡ is_err result }
        ensures later { S.faults source.old ≤ S.faults source.new }
    {
        loop {
            let Ok(found) = self.intake.games.next() else {
                self.failed = true;
                return Err(ReadEnd::NoMemory);
            };
            if let Some(game) = found {
                return Ok(Some(game));
            }
            if self.ended {
                return Ok(None);
            }
            match self.intake.refill(source) {
                Ok(Filled::More) => {}
                Ok(Filled::End) => self.ended = true,
                Err(end) => {
                    self.failed = true;
                    return Err(end);
                }
            }
        }
    }

    /// The next game that is whole in what was taken, or None where there is none. It reads nothing, and says what
    /// `pgn_games::Reader::ready` does.
    pub fn ready(&mut self) -> Result<Option<PlacedGame>, NoMemory>
        requires { self.old.failed ≡ false }
        ensures same { (self.new.taken ≡ self.old.taken) × (self.new.written ≡ self.old.written) × (self.new.ended ≡ self.old.ended) }
        ensures game { IfOk result (λ found. IfSome found (λ game. slice_get (placed_games self.new.taken) self.old.given ≡ Some game)) }
        ensures given { self.new.given ≡ (if found_one result then self.old.given + 1 else self.old.given) }
        ensures few_games { IfOk result (λ found. IfSome found (λ game. self.old.given < 2 ^ 62)) }
        ensures settled { IfOk result (λ found. IfSome found (λ game. self.old.given < settled_games self.new.taken)) }
        ensures open { self.old.ended ≡ false → result ≡ Ok None → settled_games self.new.taken ≤ self.old.given }
        ensures ended { self.old.ended ≡ true → result ≡ Ok None }
        ensures no_more { (piece : List ℕ) × TookNoMore self.new.taken piece self.old.given }
        ensures few { length self.new.taken ≤ MOST_BYTES }
        ensures failed { self.new.failed ≡ is_err result }
    {
        if self.ended {
            return Ok(None);
        }
        match self.intake.games.next() {
            Ok(found) => Ok(found),
            Err(refused) => {
                self.failed = true;
                Err(refused)
            }
        }
    }

    /// The bytes that were read and not yet written; after the last game, those behind it.
    pub fn unwritten(&self) -> &[u8]
        requires { self.now.failed ≡ false }
        ensures { result.now ≡ rest_of self.now.written self.now.taken }
    {
        self.intake.kept.items().split_at(self.intake.written).1
    }

    /// What is written of the game that was given last, with what stands before it: the bytes as they are, or the game with another
    /// result. They count as written, up to the end of the game.
    pub fn with_game(&mut self, span: Span, mark: Option<ResultMark>) -> Result<Text, NoMemory>
        requires { (self.old.written ≤ span.start) × (span.start ≤ span.end) × (span.end ≤ length self.old.taken) × (self.old.failed ≡ false) }
        ensures text { IfOk result (λ text. text ≡ piece_of self.old.taken self.old.written span mark) }
        ensures written { OnOk result (self.new.written ≡ span.end) }
        ensures same { (self.new.taken ≡ self.old.taken) × (self.new.given ≡ self.old.given) × (self.new.ended ≡ self.old.ended) × (self.new.failed ≡ self.old.failed) }
    {
        let text = self.text_of_game(span, mark)?;
        self.intake.written = (span.end - self.intake.start) as usize;
        Ok(text)
    }

    /// What is written of the game that was given last, with what stands before it.
    fn text_of_game(&self, span: Span, mark: Option<ResultMark>) -> Result<Text, NoMemory>
        requires { (self.now.written ≤ span.start) × (span.start ≤ span.end) × (span.end ≤ length self.now.taken) × (self.now.failed ≡ false) }
        ensures { IfOk result (λ text. text ≡ piece_of self.now.taken self.now.written span mark) }
    {
        match mark {
            Some(mark) => self.marked(span, mark),
            None => text_of(
                self.intake.alloc,
                self.intake.bytes_between(self.written(), span.end),
            ),
        }
    }

    /// How many bytes were written.
    fn written(&self) -> u64
        requires { self.now.failed ≡ false }
        ensures { result ≡ self.now.written }
    {
        self.intake.start + self.intake.written as u64
    }

    /// What stands before the game that was given last and was not written, and the game with another result.
    fn marked(&self, span: Span, mark: ResultMark) -> Result<Text, NoMemory>
        requires { (self.now.written ≤ span.start) × (span.start ≤ span.end) × (span.end ≤ length self.now.taken) × (self.now.failed ≡ false) }
        ensures { IfOk result (λ text. text ≡ piece_of self.now.taken self.now.written span (Some mark)) }
    {
        let intake = &self.intake;
        let before = intake.bytes_between(self.written(), span.start);
        let game = intake.bytes_between(span.start, span.end);
        let behind = intake.bytes_behind(span.end);
        let mut text = text_of(intake.alloc, before)?;
        put_with_mark(intake.alloc, mark, game, behind, &mut text)?;
        Ok(text)
    }

    /// The game that was given last with another result, and a blank line behind it; nothing where its result stays. All up to its end
    /// counts as written.
    pub fn changed_game(&mut self, span: Span, mark: Option<ResultMark>) -> Result<Text, NoMemory>
        requires { (self.old.written ≤ span.start) × (span.start ≤ span.end) × (span.end ≤ length self.old.taken) × (self.old.failed ≡ false) }
        ensures text { IfOk result (λ text. text ≡ changed_piece self.old.taken span mark) }
        ensures written { OnOk result (self.new.written ≡ span.end) }
        ensures same { (self.new.taken ≡ self.old.taken) × (self.new.given ≡ self.old.given) × (self.new.ended ≡ self.old.ended) × (self.new.failed ≡ self.old.failed) }
    {
        let text = self.changed_text(span, mark)?;
        self.intake.written = (span.end - self.intake.start) as usize;
        Ok(text)
    }

    /// The game that was given last with another result, and a blank line behind it; nothing where its result stays.
    fn changed_text(&self, span: Span, mark: Option<ResultMark>) -> Result<Text, NoMemory>
        requires { (self.now.written ≤ span.start) × (span.start ≤ span.end) × (span.end ≤ length self.now.taken) × (self.now.failed ≡ false) }
        ensures { IfOk result (λ text. text ≡ changed_piece self.now.taken span mark) }
    {
        let alloc = self.intake.alloc;
        let mut text = Text::new(alloc);
        let Some(mark) = mark else {
            return Ok(text);
        };
        let game = self.intake.bytes_between(span.start, span.end);
        put_with_mark(alloc, mark, game, &[], &mut text)?;
        text.append(b"\n\n")?;
        Ok(text)
    }
}
