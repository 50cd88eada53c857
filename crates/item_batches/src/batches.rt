//! The items of a reader, on which others may have worked before they are given.

ghost use Rattle.std.specs.Prelude.{◌≡◌, ◌≤◌, ◌<◌, ◌+◌, ◌^◌, ◌↔◌, true, false, [], length, take, is_err, IfOk, IfSome, OnOk};
ghost use Rattle.std.specs.declared.result.Result.TheVariants.{Ok, Err};
ghost use Rattle.std.specs.declared.option.Option.TheVariants.{None};
ghost use Rattle.std.specs.Io.KnownBytes.{IsAtEnd};
ghost use Rattle.cha_outside.specs.Faults.{Rose};
ghost use Rattle.cha_outside.specs.Gathering.{Gathers};
ghost use Rattle.item_batches.specs.Readers.{items_by, settled_by, closed_by};
ghost use Rattle.side_by_side.specs.declared.cuts.Purpose.TheVariants.{Corrected};
ghost use Rattle.side_by_side.specs.declared.cuts.ItemKind.TheVariants.{Games as GamesFor};
ghost use Rattle.side_by_side.specs.Cuts.{IsAskedOf};
ghost use Rattle.item_batches.specs.Batches.{IsWorkAt};
ghost use Rattle.item_batches.specs.Items.{TookAsNeeded, most_bytes};
ghost use Rattle.item_batches.specs.Pieces.{game_piece, end_piece};

use crate::coming::await_item;
use crate::queue::{Queue, end_all, nothing_queued, take_first};
use crate::readers::ItemReader;
use cha_list::{NoMemory, Text};
use cha_outcome::Question;
use cha_outside::{ReadEnd, Source};
use pgn_games::{ResultMark, Span};
use side_by_side::{Hands, ItemKind, Progress};
use std::alloc::Global;
use std::marker::Model;

/// Gives the items of a reader one at a time, in order. Those that are whole in what was read are worked on, in parts, before they are
/// given, as far as that needs no search by a crew; while one part is given, those behind it are worked on.
#[derive(Drop)]
pub struct Batches<'a, H: Hands> {
    hands: &'a H,
    reader: ItemReader,
    question: Question,
    queue: Queue,
    failed: bool,
}

/// Contracts see the kind of the items and what is asked about them, the bytes taken, how many of them were written, how many items were
/// given, whether the source has ended, and whether a call failed.
impl<'a, H: Hands> Model for Batches<'a, H> {
    ghost use Rattle.item_batches.specs.Readers.{kind_of, taken_by, written_by, has_ended};
    ghost use Rattle.item_batches.specs.Batches.{BatchesState, items_queued, given_from, IsQueued};
    ghost use Rattle.side_by_side.specs.Parts.{AreMine, AreAbout};

    ghost Value = { BatchesState };

    ghost view = { λ s. record { kind = kind_of s.reader; question = s.question; taken = taken_by s.reader; written = written_by s.reader; given = given_from s.reader s.queue; ended = has_ended s.reader; failed = s.failed } };

    ghost invariant = { λ s. H.ready s.hands.now × AreMine H.mine s.queue.begun.items × AreAbout s.question s.queue.begun.items × IsQueued s.reader s.question (items_queued s.queue) s.failed };
}

impl<'a, H: Hands> Batches<'a, H> {
    /// Such items of an input of which nothing was taken yet, about which this is asked. The only error is want of memory.
    pub fn new(
        alloc: Global,
        hands: &'a H,
        kind: ItemKind,
        question: Question,
    ) -> Result<Batches<'a, H>, NoMemory>
        requires ready { H.ready hands.now }
        requires asked { IsAskedOf kind question }
        ensures { IfOk result (λ batches. batches ≡ record { kind = kind; question = question; taken = []; written = 0; given = 0; ended = false; failed = false }) }
    {
        let reader = ItemReader::new(alloc, kind)?;
        Ok(Batches {
            hands,
            reader,
            question,
            queue: nothing_queued(alloc),
            failed: false,
        })
    }

    /// Whether the text is closed, once its source has ended; a text of lines always is.
    pub fn is_closed(&self) -> bool
        ensures { self.now.ended ≡ true → self.now.failed ≡ false → result ≡ closed_by self.now.kind self.now.taken }
    {
        self.reader.is_closed()
    }

    /// The work on the next item, or None where all items were given. It reads only where each item that is settled in what was taken was given
    /// before, and no further piece, of at most 8,388,608 bytes, than the next item needs, whatever the answer. After an error no call may
    /// follow.
    pub fn next<S: Source>(
        &mut self,
        alloc: Global,
        source: &mut S,
    ) -> Result<Option<Progress>, ReadEnd>
        requires goes_on { self.old.failed ≡ false }
        ensures kind { (self.new.kind ≡ self.old.kind) × (self.new.question ≡ self.old.question) }
        ensures written { self.new.written ≡ self.old.written }
        ensures bytes { Gathers (S.left source.old) (S.left source.new) self.old.taken self.new.taken }
        ensures work { IfOk result (λ found. IfSome found (IsWorkAt self.old.question (items_by self.old.kind self.new.taken) self.old.given)) }
        ensures given { IfOk result (λ found. IfSome found (λ progress. (self.new.given ≡ self.old.given + 1) × (self.old.given < 2 ^ 62))) }
        ensures still { self.old.ended ≡ true → self.new.taken ≡ self.old.taken }
        ensures still_ended { self.old.ended ≡ true → self.new.ended ≡ true }
        ensures before_end { self.new.ended ≡ false → IfOk result (λ found. IfSome found (λ progress. self.old.given < settled_by self.old.kind self.new.taken)) }
        ensures none { result ≡ Ok None → (self.new.ended ≡ true) × (length (items_by self.old.kind self.new.taken) ≤ self.old.given) }
        ensures first { take self.old.given (items_by self.old.kind self.new.taken) ≡ take self.old.given (items_by self.old.kind self.old.taken) }
        ensures end { (self.old.ended ≡ true → IsAtEnd (S.left source.old)) → self.new.ended ≡ true → IsAtEnd (S.left source.new) }
        ensures read_fault { result ≡ Err ReadEnd.ReadFault → Rose (S.faults source.old) (S.faults source.new) }
        ensures settled { result ≡ Err ReadEnd.ReadFault → settled_by self.old.kind self.new.taken ≤ self.old.given }
        ensures at_hand { self.old.given < settled_by self.old.kind self.old.taken → source.new ≡ source.old }
        ensures no_more { TookAsNeeded (settled_by self.old.kind) self.new.taken self.old.given }
        ensures too_long { (result ≡ Err ReadEnd.TooLong) ↔ (most_bytes < length self.new.taken) }
        ensures few { length self.new.taken ≤ most_bytes + 4096 }
        ensures failed { self.new.failed ≡ is_err result }
        ensures later { S.faults source.old ≤ S.faults source.new }
    {
        match await_item(&mut self.queue, &mut self.reader, source) {
            Ok(true) => {}
            Ok(false) => return Ok(None),
            Err(end) => {
                self.failed = true;
                return Err(end);
            }
        }
        match take_first(
            alloc,
            self.hands,
            &self.question,
            &mut self.queue,
            &mut self.reader,
        ) {
            Ok(progress) => Ok(Some(progress)),
            Err(_) => {
                self.failed = true;
                Err(ReadEnd::NoMemory)
            }
        }
    }

    /// What is written of the next game that was not written, where games may be corrected: with `changed` of those that change alone.
    /// All up to its end counts as written.
    pub fn text_of_game(
        &mut self,
        changed: bool,
        span: Span,
        mark: Option<ResultMark>,
    ) -> Result<Text, NoMemory>
        requires kept { self.old.kind ≡ GamesFor Corrected }
        requires goes_on { self.old.failed ≡ false }
        requires place { (self.old.written ≤ span.start) × (span.start ≤ span.end) × (span.end ≤ length self.old.taken) }
        ensures text { IfOk result (λ text. text ≡ game_piece changed self.old.taken self.old.written span mark) }
        ensures written { OnOk result (self.new.written ≡ span.end) }
        ensures kind { (self.new.kind ≡ self.old.kind) × (self.new.question ≡ self.old.question) }
        ensures same { (self.new.taken ≡ self.old.taken) × (self.new.given ≡ self.old.given) × (self.new.ended ≡ self.old.ended) × (self.new.failed ≡ self.old.failed) }
    {
        self.reader.text_of_game(changed, span, mark)
    }

    /// What is written of the text behind its last game, where games may be corrected; with `changed` nothing.
    pub fn behind(&self, changed: bool) -> &[u8]
        requires kept { self.now.kind ≡ GamesFor Corrected }
        requires goes_on { self.now.failed ≡ false }
        ensures { result.now ≡ end_piece changed self.now.taken self.now.written }
    {
        self.reader.behind(changed)
    }

    /// Ends all work that was begun.
    pub fn end(self) {
        let Batches { hands, queue, .. } = self;
        end_all(hands, queue.begun);
    }
}
