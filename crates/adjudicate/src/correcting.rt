//! Games with the right results: each is written as soon as it is judged, and all other bytes as they are.

ghost use Rattle.std.specs.Prelude.{◌≡◌, ◌≤◌, ℕ, List, [], length, true, false, IfOk, OnOk, OnErr, IsSome};
ghost use Rattle.std.specs.declared.option.Option.TheVariants.{Some};
ghost use Rattle.cha_outside.specs.Writing.{Takes, WriteCause};
ghost use Rattle.cha_outcome.specs.Outcomes.{item_of, new_result};
ghost use Rattle.cha_outcome.specs.Totals.{counted, HasRoom};
ghost use Rattle.pgn_games.specs.declared.played.Span.{Span as Place};
ghost use Rattle.report_style.specs.declared.styles.Style.TheVariants.{SummaryAlone};
ghost use Rattle.flag_report.specs.declared.styles.Subject.TheVariants.{Games};
ghost use Rattle.flag_report.specs.Styles.{summary};
ghost use Rattle.pgn_games.specs.Games.{is_closed};
ghost use Rattle.item_batches.specs.Pieces.{game_piece, end_piece};
ghost use Rattle.adjudicate.specs.Steps.{place_of, IsEnded};
ghost use Rattle.cha_limits.specs.Bounds.{Bounds};
ghost use Rattle.cha_outcome.specs.declared.outcomes.Outcome.{Outcome as OutcomeOf};
ghost use Rattle.cha_outcome.specs.declared.questions.FlaggedDraws.{FlaggedDraws as DrawRule};
ghost use Rattle.cha_outcome.specs.declared.questions.Question.TheVariants.{Verdicts};
ghost use Rattle.adjudicate.specs.Corrections.{noted, HasAll, HasSameGames};
ghost use Rattle.adjudicate.specs.Jobs.{on_kept_games};
ghost use Rattle.adjudicate.specs.Orders.{IsCorrecting};
ghost use Rattle.side_by_side.specs.declared.cuts.Purpose.TheVariants.{Corrected};
ghost use Rattle.side_by_side.specs.declared.cuts.ItemKind.TheVariants.{Games as GamesFor};
ghost use Rattle.side_by_side.specs.Cuts.{IsAskedOf};
ghost use Rattle.adjudicate.specs.Runs.{outside};

use crate::endings::Status;
use crate::writing::put;
use cha_judge::Judge;
use cha_list::{NoMemory, Text};
use cha_outcome::{Outcome, Totals};
use cha_outside::{Sink, Source, Wrote};
use flag_report::{Subject, put_summary};
use item_batches::Batches;
use pgn_games::Span;
use pgn_results::corrected_games_stay_the_same;
use report_style::Style;
use side_by_side::{Hands, ItemKind, Purpose, finish};
use std::alloc::Global;

/// Reads a source to its end and writes its games with the results that the Laws give them, each as soon as it is judged, and the
/// summary to a second sink. With `changed` only the games whose result changes are written.
pub fn correct_games<H: Hands, J: Judge, S: Source, K: Sink, N: Sink>(
    alloc: Global,
    changed: bool,
    hands: &H,
    judge: &mut J,
    source: &mut S,
    sink: &mut K,
    notes: &mut N,
) -> Status
    requires hands { H.ready hands.now }
    requires ready { J.ready judge.old }
    requires asked { IsAskedOf (GamesFor Corrected) (J.question judge.old) }
    ensures stays_ready { J.ready judge.new }
    ensures worked { J.worked judge.old judge.new }
    ensures run { IsCorrecting (record { judging = on_kept_games (J.question judge.old); changed = changed }) result (outside (S.left source.old) (S.faults source.old) (K.written sink.old) (K.faults sink.old)) (outside (S.left source.new) (S.faults source.new) (K.written sink.new) (K.faults sink.new)) (noted (N.written notes.old) (N.faults notes.old)) (noted (N.written notes.new) (N.faults notes.new)) }
{
    let kind = ItemKind::Games(Purpose::Corrected);
    let Ok(mut games) = Batches::new(alloc, hands, kind, judge.question()) else {
        return Status::NoMemory;
    };
    let status = write_games(alloc, changed, &mut games, judge, source, sink, notes);
    games.end();
    status
}

/// Judges each game of a text of which nothing was taken yet, and writes it with the right result, and at the end the summary.
fn write_games<H: Hands, J: Judge, S: Source, K: Sink, N: Sink>(
    alloc: Global,
    changed: bool,
    games: &mut Batches<H>,
    judge: &mut J,
    source: &mut S,
    sink: &mut K,
    notes: &mut N,
) -> Status
    requires ready { J.ready judge.old }
    requires asked { IsAskedOf (GamesFor Corrected) (J.question judge.old) }
    requires first { games.old ≡ record { kind = GamesFor Corrected; question = J.question judge.old; taken = []; written = 0; given = 0; ended = false; failed = false } }
    ensures stays_ready { J.ready judge.new }
    ensures worked { J.worked judge.old judge.new }
    ensures run { IsCorrecting (record { judging = on_kept_games (J.question judge.old); changed = changed }) result (outside (S.left source.old) (S.faults source.old) (K.written sink.old) (K.faults sink.old)) (outside (S.left source.new) (S.faults source.new) (K.written sink.new) (K.faults sink.new)) (noted (N.written notes.old) (N.faults notes.old)) (noted (N.written notes.new) (N.faults notes.new)) }
{
    let mut totals = Totals::new();
    loop {
        let found = match games.next(alloc, source) {
            Ok(found) => found,
            Err(end) => return Status::from(end),
        };
        let Some(progress) = found else {
            return end_text(alloc, changed, games, &totals, sink, notes);
        };
        let Ok(outcome) = finish(alloc, judge, progress) else {
            return Status::NoMemory;
        };
        let Ok(wrote) = write_game(changed, &mut totals, games, outcome, sink) else {
            return Status::NoMemory;
        };
        match wrote {
            Wrote::All => {}
            Wrote::Failed(_) => return Status::WriteFault,
        }
    }
}

/// Counts an outcome, and writes its game with what stands before it; with `changed` only a game whose result changes.
fn write_game<H: Hands, K: Sink>(
    changed: bool,
    totals: &mut Totals,
    games: &mut Batches<H>,
    outcome: Outcome,
    sink: &mut K,
) -> Result<Wrote, NoMemory>
    requires room { HasRoom totals.old }
    requires kept { games.old.kind ≡ GamesFor Corrected }
    requires goes_on { games.old.failed ≡ false }
    requires place { (span : Place) × (place_of (item_of outcome) ≡ Some span) × ((games.old.written ≤ span.start) × (span.start ≤ span.end) × (span.end ≤ length games.old.taken)) }
    ensures counted { totals.new ≡ counted totals.old outcome }
    ensures bytes { (span : Place) → place_of (item_of outcome) ≡ Some span → IfOk result (λ wrote. Takes (K.written sink.old) (K.written sink.new) wrote (game_piece changed games.old.taken games.old.written span (new_result outcome))) }
    ensures cause { IfOk result (λ wrote. WriteCause (K.faults sink.old) (K.faults sink.new) wrote) }
    ensures untouched { OnErr result (sink.new ≡ sink.old) }
    ensures written { (span : Place) → place_of (item_of outcome) ≡ Some span → OnOk result (games.new.written ≡ span.end) }
    ensures kind { (games.new.kind ≡ games.old.kind) × (games.new.question ≡ games.old.question) }
    ensures same { (games.new.taken ≡ games.old.taken) × (games.new.given ≡ games.old.given) × (games.new.ended ≡ games.old.ended) × (games.new.failed ≡ games.old.failed) }
{
    totals.count(&outcome);
    let span = span_of(&outcome);
    match games.text_of_game(changed, span, outcome.new_result()) {
        Ok(text) => Ok(put(sink, text.items())),
        Err(refused) => Err(refused),
    }
}

/// Where the game of an outcome stands in its text.
#[tactic(auto, unfolding(cha_outcome::specs::Outcomes::item_of))]
fn span_of(outcome: &Outcome) -> Span
    requires game { IsSome (place_of (item_of outcome.now)) }
    ensures { place_of (item_of outcome.now) ≡ Some result }
{
    match outcome {
        Outcome::JudgedGame { game, .. } => game.span,
        Outcome::UnreadableGame { span, .. } => *span,
        Outcome::Replayed(game) => game.span,
        Outcome::JudgedPosition { .. } => unreachable!(),
        Outcome::ListedMates { .. } => unreachable!(),
        Outcome::RefusedLine { .. } => unreachable!(),
    }
}

/// Writes what stands behind the last game, and the summary to the second sink.
fn end_text<H: Hands, K: Sink, N: Sink>(
    alloc: Global,
    changed: bool,
    games: &Batches<H>,
    totals: &Totals,
    sink: &mut K,
    notes: &mut N,
) -> Status
    requires kept { games.now.kind ≡ GamesFor Corrected }
    requires ended { (games.now.failed ≡ false) × (games.now.ended ≡ true) }
    ensures { IsEnded result (end_piece changed games.now.taken games.now.written) (summary SummaryAlone Games (is_closed games.now.taken) totals.now) (K.written sink.old) (K.faults sink.old) (K.written sink.new) (K.faults sink.new) (noted (N.written notes.old) (N.faults notes.old)) (noted (N.written notes.new) (N.faults notes.new)) }
{
    let Ok(summary) = summary_of(alloc, games.is_closed(), totals) else {
        return Status::NoMemory;
    };
    match put(sink, games.behind(changed)) {
        Wrote::All => {}
        Wrote::Failed(_) => return Status::WriteFault,
    }
    match put(notes, summary.items()) {
        Wrote::All => Status::Done,
        Wrote::Failed(_) => Status::WriteFault,
    }
}

/// The summary of what was judged.
fn summary_of(alloc: Global, closed: bool, totals: &Totals) -> Result<Text, NoMemory>
    ensures { IfOk result (λ text. text ≡ summary SummaryAlone Games closed totals.now) }
{
    let mut text = Text::new(alloc);
    put_summary(
        alloc,
        Style::SummaryAlone,
        Subject::Games,
        closed,
        totals,
        &mut text,
    )?;
    Ok(text)
}

/// Where the games of a text are written with the results of sound outcomes, they stay the same games, but for their results.
pub fn corrected_games_stay()
    ensures { (limits : Bounds) (draws : DrawRule) (bytes : List ℕ) (os : List OutcomeOf) → HasAll (on_kept_games (Verdicts limits draws)) bytes os → HasSameGames bytes os }
{
    corrected_games_stay_the_same();
}
