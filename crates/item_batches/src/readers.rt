//! The items of an input, one at a time.

ghost use Rattle.std.specs.Prelude.{◌≡◌, ◌≤◌, ◌<◌, ◌+◌, ◌^◌, ◌↔◌, true, false, [], length, take, IfOk, OnOk, IfSome, IfNone};
ghost use Rattle.std.specs.Io.KnownBytes.{IsAtEnd};
ghost use Rattle.cha_outside.specs.Faults.{Rose};
ghost use Rattle.cha_outside.specs.Gathering.{Gathers};
ghost use Rattle.pgn_games.specs.Settling.{settled_games};
ghost use Rattle.text_lines.specs.Lines.{settled_lines};
ghost use Rattle.side_by_side.specs.declared.cuts.Purpose.TheVariants.{Corrected};
ghost use Rattle.side_by_side.specs.declared.cuts.ItemKind.TheVariants.{Games as GamesFor, Lines};
ghost use Rattle.item_batches.specs.Batches.{IsCutAt};
ghost use Rattle.item_batches.specs.Items.{game_items, position_items};
ghost use Rattle.item_batches.specs.Readers.{taken_by, written_by, given_by, has_ended, kind_of, items_by, settled_by, closed_by, CanGoOn};
ghost use Rattle.item_batches.specs.Pieces.{game_piece, end_piece};
ghost use Rattle.item_batches.specs.Items.{TookAsNeeded, most_bytes};

use crate::kept::{next_kept, ready_kept};
use cha_list::{NoMemory, Text};
use cha_outside::{ReadEnd, Source};
use pgn_games::{Reader, ResultMark, Span};
use pgn_results::KeptReader;
use side_by_side::{Cut, ItemKind, Purpose};
use std::alloc::Global;
use text_lines::LineReader;

/// Who gives the items of an input.
#[derive(Drop)]
pub enum ItemReader {
    /// Games, each as soon as it has come.
    Games(Reader),
    /// Games whose results may be corrected, each as soon as it has come.
    Kept(KeptReader),
    /// Lines, each as soon as it has come.
    Lines(LineReader),
    /// Games whose moves are told, each as soon as it has come.
    Replays(Reader),
}

impl ItemReader {
    /// Who gives such items; nothing is taken yet. The only error is want of memory.
    pub fn new(alloc: Global, kind: ItemKind) -> Result<ItemReader, NoMemory>
        ensures kind { IfOk result (λ reader. kind_of reader ≡ kind) }
        ensures first { IfOk result (λ reader. (taken_by reader ≡ []) × (written_by reader ≡ 0) × (given_by reader ≡ 0) × (has_ended reader ≡ false)) }
        ensures goes_on { IfOk result (λ reader. CanGoOn reader) }
    {
        match kind {
            ItemKind::Games(Purpose::Judged) => Ok(ItemReader::Games(Reader::new(alloc)?)),
            ItemKind::Games(Purpose::Corrected) => Ok(ItemReader::Kept(KeptReader::new(alloc)?)),
            ItemKind::Games(Purpose::Told) => Ok(ItemReader::Replays(Reader::new(alloc)?)),
            ItemKind::Lines => Ok(ItemReader::Lines(LineReader::new(alloc))),
        }
    }

    /// What the next item was cut from its text as, or None where all were given. No further piece is read than the item needs. After an error no
    /// call may follow.
    pub fn next<S: Source>(&mut self, source: &mut S) -> Result<Option<Cut>, ReadEnd>
        requires { CanGoOn self.old }
        ensures kind { kind_of self.new ≡ kind_of self.old }
        ensures written { written_by self.new ≡ written_by self.old }
        ensures bytes { Gathers (S.left source.old) (S.left source.new) (taken_by self.old) (taken_by self.new) }
        ensures cut { IfOk result (λ found. IfSome found (IsCutAt (kind_of self.old) (taken_by self.new) (given_by self.old))) }
        ensures given { IfOk result (λ found. IfSome found (λ cut. (given_by self.new ≡ given_by self.old + 1) × (given_by self.old < 2 ^ 62))) }
        ensures still { has_ended self.old ≡ true → taken_by self.new ≡ taken_by self.old }
        ensures still_ended { has_ended self.old ≡ true → has_ended self.new ≡ true }
        ensures before_end { has_ended self.new ≡ false → IfOk result (λ found. IfSome found (λ cut. given_by self.old < settled_by (kind_of self.old) (taken_by self.new))) }
        ensures stays { IfOk result (λ found. IfNone found (given_by self.new ≡ given_by self.old)) }
        ensures none { result ≡ Ok None → (has_ended self.new ≡ true) × (length (items_by (kind_of self.old) (taken_by self.new)) ≤ given_by self.old) }
        ensures first { take (given_by self.old) (items_by (kind_of self.old) (taken_by self.new)) ≡ take (given_by self.old) (items_by (kind_of self.old) (taken_by self.old)) }
        ensures end { (has_ended self.old ≡ true → IsAtEnd (S.left source.old)) → has_ended self.new ≡ true → IsAtEnd (S.left source.new) }
        ensures read_fault { result ≡ Err ReadEnd.ReadFault → Rose (S.faults source.old) (S.faults source.new) }
        ensures settled { result ≡ Err ReadEnd.ReadFault → settled_by (kind_of self.old) (taken_by self.new) ≤ given_by self.old }
        ensures at_hand { given_by self.old < settled_by (kind_of self.old) (taken_by self.old) → source.new ≡ source.old }
        ensures no_more { TookAsNeeded (settled_by (kind_of self.old)) (taken_by self.new) (given_by self.old) }
        ensures too_long { (result ≡ Err ReadEnd.TooLong) ↔ (most_bytes < length (taken_by self.new)) }
        ensures few { length (taken_by self.new) ≤ most_bytes + 4096 }
        ensures goes_on { IfOk result (λ _. CanGoOn self.new) }
        ensures later { S.faults source.old ≤ S.faults source.new }
    {
        match self {
            ItemReader::Games(reader) => next_game(reader, Purpose::Judged, source),
            ItemReader::Kept(reader) => next_kept(reader, source),
            ItemReader::Lines(reader) => next_line(reader, source),
            ItemReader::Replays(reader) => next_game(reader, Purpose::Told, source),
        }
    }

    /// The next item that is whole in what was taken, or None where there is none. Nothing is read. After an error no call may follow.
    pub fn ready(&mut self) -> Result<Option<Cut>, NoMemory>
        requires { CanGoOn self.old }
        ensures kind { kind_of self.new ≡ kind_of self.old }
        ensures same { (taken_by self.new ≡ taken_by self.old) × (has_ended self.new ≡ has_ended self.old) }
        ensures written { written_by self.new ≡ written_by self.old }
        ensures cut { IfOk result (λ found. IfSome found (IsCutAt (kind_of self.old) (taken_by self.old) (given_by self.old))) }
        ensures given { IfOk result (λ found. IfSome found (λ cut. (given_by self.new ≡ given_by self.old + 1) × (given_by self.old < 2 ^ 62))) }
        ensures settled { IfOk result (λ found. IfSome found (λ cut. given_by self.old < settled_by (kind_of self.old) (taken_by self.old))) }
        ensures no_more { TookAsNeeded (settled_by (kind_of self.old)) (taken_by self.new) (given_by self.old) }
        ensures none { IfOk result (λ found. IfNone found (given_by self.new ≡ given_by self.old)) }
        ensures goes_on { IfOk result (λ _. CanGoOn self.new) }
    {
        match self {
            ItemReader::Games(reader) => ready_game(reader, Purpose::Judged),
            ItemReader::Kept(reader) => ready_kept(reader),
            ItemReader::Lines(reader) => ready_line(reader),
            ItemReader::Replays(reader) => ready_game(reader, Purpose::Told),
        }
    }

    /// Whether the text is closed, once its source has ended; a text of lines always is.
    pub fn is_closed(&self) -> bool
        ensures { has_ended self.now ≡ true → CanGoOn self.now → result ≡ closed_by (kind_of self.now) (taken_by self.now) }
    {
        match self {
            ItemReader::Games(reader) => reader.is_closed(),
            ItemReader::Kept(reader) => reader.is_closed(),
            ItemReader::Lines(_) => true,
            ItemReader::Replays(reader) => reader.is_closed(),
        }
    }

    /// What is written of the next game that was not written: with `changed` of those that change alone. All up to its end counts as
    /// written.
    pub fn text_of_game(
        &mut self,
        changed: bool,
        span: Span,
        mark: Option<ResultMark>,
    ) -> Result<Text, NoMemory>
        requires kept { kind_of self.old ≡ GamesFor Corrected }
        requires goes_on { CanGoOn self.old }
        requires place { (written_by self.old ≤ span.start) × (span.start ≤ span.end) × (span.end ≤ length (taken_by self.old)) }
        ensures kind { kind_of self.new ≡ kind_of self.old }
        ensures text { IfOk result (λ text. text ≡ game_piece changed (taken_by self.old) (written_by self.old) span mark) }
        ensures written { OnOk result (written_by self.new ≡ span.end) }
        ensures same { (taken_by self.new ≡ taken_by self.old) × (given_by self.new ≡ given_by self.old) × (has_ended self.new ≡ has_ended self.old) }
        ensures goes_on { CanGoOn self.new }
    {
        match self {
            ItemReader::Kept(reader) if changed => reader.changed_game(span, mark),
            ItemReader::Kept(reader) => reader.with_game(span, mark),
            _ => unreachable!(),
        }
    }

    /// What is written of the text behind its last game; with `changed` nothing.
    pub fn behind(&self, changed: bool) -> &[u8]
        requires kept { kind_of self.now ≡ GamesFor Corrected }
        requires goes_on { CanGoOn self.now }
        ensures { result.now ≡ end_piece changed (taken_by self.now) (written_by self.now) }
    {
        match self {
            ItemReader::Kept(reader) if !changed => reader.unwritten(),
            ItemReader::Kept(_) => &[],
            _ => unreachable!(),
        }
    }
}

/// The next game, or None where all were given.
fn next_game<S: Source>(
    reader: &mut Reader,
    purpose: Purpose,
    source: &mut S,
) -> Result<Option<Cut>, ReadEnd>
    requires { reader.old.failed ≡ false }
    ensures bytes { Gathers (S.left source.old) (S.left source.new) reader.old.taken reader.new.taken }
    ensures cut { IfOk result (λ found. IfSome found (IsCutAt (GamesFor purpose) reader.new.taken reader.old.given)) }
    ensures given { IfOk result (λ found. IfSome found (λ cut. (reader.new.given ≡ reader.old.given + 1) × (reader.old.given < 2 ^ 62))) }
    ensures still { reader.old.ended ≡ true → reader.new.taken ≡ reader.old.taken }
    ensures still_ended { reader.old.ended ≡ true → reader.new.ended ≡ true }
    ensures before_end { reader.new.ended ≡ false → IfOk result (λ found. IfSome found (λ cut. reader.old.given < settled_games reader.new.taken)) }
    ensures stays { IfOk result (λ found. IfNone found (reader.new.given ≡ reader.old.given)) }
    ensures none { result ≡ Ok None → (reader.new.ended ≡ true) × (length (game_items purpose reader.new.taken) ≤ reader.old.given) }
    ensures first { take reader.old.given (game_items purpose reader.new.taken) ≡ take reader.old.given (game_items purpose reader.old.taken) }
    ensures end { (reader.old.ended ≡ true → IsAtEnd (S.left source.old)) → reader.new.ended ≡ true → IsAtEnd (S.left source.new) }
    ensures read_fault { result ≡ Err ReadEnd.ReadFault → Rose (S.faults source.old) (S.faults source.new) }
    ensures settled { result ≡ Err ReadEnd.ReadFault → settled_games reader.new.taken ≤ reader.old.given }
    ensures at_hand { reader.old.given < settled_games reader.old.taken → source.new ≡ source.old }
    ensures no_more { TookAsNeeded settled_games reader.new.taken reader.old.given }
    ensures too_long { (result ≡ Err ReadEnd.TooLong) ↔ (most_bytes < length reader.new.taken) }
    ensures few { length reader.new.taken ≤ most_bytes + 4096 }
    ensures goes_on { IfOk result (λ _. (reader.new.failed ≡ false) × (length reader.new.taken ≤ most_bytes)) }
    ensures later { S.faults source.old ≤ S.faults source.new }
{
    match reader.next(source) {
        Ok(Some(game)) => Ok(Some(Cut::Game(purpose, game))),
        Ok(None) => Ok(None),
        Err(end) => Err(end),
    }
}

/// The next game that is whole in what was taken, or None.
fn ready_game(reader: &mut Reader, purpose: Purpose) -> Result<Option<Cut>, NoMemory>
    requires { (reader.old.failed ≡ false) × (length reader.old.taken ≤ most_bytes) }
    ensures same { (reader.new.taken ≡ reader.old.taken) × (reader.new.ended ≡ reader.old.ended) }
    ensures cut { IfOk result (λ found. IfSome found (IsCutAt (GamesFor purpose) reader.old.taken reader.old.given)) }
    ensures given { IfOk result (λ found. IfSome found (λ cut. (reader.new.given ≡ reader.old.given + 1) × (reader.old.given < 2 ^ 62))) }
    ensures settled { IfOk result (λ found. IfSome found (λ cut. reader.old.given < settled_games reader.old.taken)) }
    ensures no_more { TookAsNeeded settled_games reader.new.taken reader.old.given }
    ensures none { IfOk result (λ found. IfNone found (reader.new.given ≡ reader.old.given)) }
    ensures goes_on { IfOk result (λ _. (reader.new.failed ≡ false) × (length reader.new.taken ≤ most_bytes)) }
{
    match reader.ready() {
        Ok(Some(game)) => Ok(Some(Cut::Game(purpose, game))),
        Ok(None) => Ok(None),
        Err(refused) => Err(refused),
    }
}

/// The next line that is not blank, or None where all were given.
fn next_line<S: Source>(reader: &mut LineReader, source: &mut S) -> Result<Option<Cut>, ReadEnd>
    requires { reader.old.failed ≡ false }
    ensures bytes { Gathers (S.left source.old) (S.left source.new) reader.old.taken reader.new.taken }
    ensures cut { IfOk result (λ found. IfSome found (IsCutAt Lines reader.new.taken reader.old.given)) }
    ensures given { IfOk result (λ found. IfSome found (λ cut. (reader.new.given ≡ reader.old.given + 1) × (reader.old.given < 2 ^ 62))) }
    ensures still { reader.old.ended ≡ true → reader.new.taken ≡ reader.old.taken }
    ensures still_ended { reader.old.ended ≡ true → reader.new.ended ≡ true }
    ensures before_end { reader.new.ended ≡ false → IfOk result (λ found. IfSome found (λ cut. reader.old.given < settled_lines reader.new.taken)) }
    ensures stays { IfOk result (λ found. IfNone found (reader.new.given ≡ reader.old.given)) }
    ensures none { result ≡ Ok None → (reader.new.ended ≡ true) × (length (position_items reader.new.taken) ≤ reader.old.given) }
    ensures first { take reader.old.given (position_items reader.new.taken) ≡ take reader.old.given (position_items reader.old.taken) }
    ensures end { (reader.old.ended ≡ true → IsAtEnd (S.left source.old)) → reader.new.ended ≡ true → IsAtEnd (S.left source.new) }
    ensures read_fault { result ≡ Err ReadEnd.ReadFault → Rose (S.faults source.old) (S.faults source.new) }
    ensures settled { result ≡ Err ReadEnd.ReadFault → settled_lines reader.new.taken ≤ reader.old.given }
    ensures at_hand { reader.old.given < settled_lines reader.old.taken → source.new ≡ source.old }
    ensures no_more { TookAsNeeded settled_lines reader.new.taken reader.old.given }
    ensures too_long { (result ≡ Err ReadEnd.TooLong) ↔ (most_bytes < length reader.new.taken) }
    ensures few { length reader.new.taken ≤ most_bytes + 4096 }
    ensures goes_on { IfOk result (λ _. (reader.new.failed ≡ false) × (length reader.new.taken ≤ most_bytes)) }
    ensures later { S.faults source.old ≤ S.faults source.new }
{
    match reader.next(source) {
        Ok(Some(line)) => Ok(Some(Cut::Line(line))),
        Ok(None) => Ok(None),
        Err(end) => Err(end),
    }
}

/// The next line that is not blank that is whole in what was taken, or None.
fn ready_line(reader: &mut LineReader) -> Result<Option<Cut>, NoMemory>
    requires { (reader.old.failed ≡ false) × (length reader.old.taken ≤ most_bytes) }
    ensures same { (reader.new.taken ≡ reader.old.taken) × (reader.new.ended ≡ reader.old.ended) }
    ensures cut { IfOk result (λ found. IfSome found (IsCutAt Lines reader.old.taken reader.old.given)) }
    ensures given { IfOk result (λ found. IfSome found (λ cut. (reader.new.given ≡ reader.old.given + 1) × (reader.old.given < 2 ^ 62))) }
    ensures settled { IfOk result (λ found. IfSome found (λ cut. reader.old.given < settled_lines reader.old.taken)) }
    ensures no_more { TookAsNeeded settled_lines reader.new.taken reader.old.given }
    ensures none { IfOk result (λ found. IfNone found (reader.new.given ≡ reader.old.given)) }
    ensures goes_on { IfOk result (λ _. (reader.new.failed ≡ false) × (length reader.new.taken ≤ most_bytes)) }
{
    match reader.ready() {
        Ok(Some(line)) => Ok(Some(Cut::Line(line))),
        Ok(None) => Ok(None),
        Err(refused) => Err(refused),
    }
}
