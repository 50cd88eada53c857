//! The line on an outcome.

ghost use Rattle.std.specs.Prelude.{◌≡◌, ◌++◌, OnOk, codes};
ghost use Rattle.cha_fen.specs.Written.{fen_text};
ghost use Rattle.cha_outcome.specs.Outcomes.{ArePrintable, IsPrintableOutcome};
ghost use Rattle.json.specs.Json.{Members, no_members, member, string};
ghost use Rattle.report_words.specs.Reasons.{fen_fault_text};
ghost use Rattle.report_words.specs.Words.{status_text};
ghost use Rattle.json_report.specs.Lines.{count};
ghost use Rattle.json_report.specs.Outcomes.{span_members, finding_members, found_members, outcome_json, outcome_line, place_members};
ghost use Rattle.json_report.specs.Spelled.{IsMember, IsValue, Leads, ReadsAs};
ghost use Rattle.report_words.specs.LegalLines.{AreOfLegalMoves, HasLegalLines};

use crate::mates::put_mates;
use crate::members::{put_count, put_text};
use crate::plies::{put_replay, put_unreadable};
use crate::results::put_results;
use crate::verdicts::put_verdict;
use cha_board::{Color, Position};
use cha_fen::{FenFault, write};
use cha_list::{NoMemory, Text};
use cha_outcome::{Outcome, PositionStatus};
use cha_verdict::Decision;
use json_text::JsonText;
use pgn_games::Span;
use report_style::Extras;
use report_words::{put_fen_fault, put_status};
use std::alloc::Global;

/// Writes the member with the FEN of a position.
fn put_fen(alloc: Global, position: &Position, json: &mut JsonText) -> Result<(), NoMemory>
    ensures { OnOk result (IsMember json.old (codes "fen") (string (fen_text position.now)) json.new) }
{
    let fen = write(alloc, position)?;
    put_text(b"fen", fen.items(), json)
}

/// Writes the member with the status of a position.
fn put_state(alloc: Global, status: PositionStatus, json: &mut JsonText) -> Result<(), NoMemory>
    ensures { OnOk result (IsMember json.old (codes "status") (string (status_text status)) json.new) }
{
    let mut text = Text::new(alloc);
    put_status(status, &mut text)?;
    put_text(b"status", text.items(), json)
}

/// Writes the members that say what is found about a position.
fn put_findings(
    alloc: Global,
    extras: Extras,
    position: &Position,
    decision: &Decision,
    status: PositionStatus,
    json: &mut JsonText,
) -> Result<(), NoMemory>
    requires printable { ArePrintable decision.now }
    requires legal { AreOfLegalMoves position.now decision.now }
    ensures { OnOk result ((more : Members) → Leads json.old (finding_members extras position.now decision.now status more) json.new more) }
{
    put_fen(alloc, position, json)?;
    put_verdict(
        alloc,
        extras,
        b"white",
        position,
        Color::White,
        &decision.white,
        json,
    )?;
    put_verdict(
        alloc,
        extras,
        b"black",
        position,
        Color::Black,
        &decision.black,
        json,
    )?;
    put_state(alloc, status, json)?;
    Ok(())
}

/// Writes the members that say where a game stands in its text.
fn put_span(alloc: Global, span: Span, json: &mut JsonText) -> Result<(), NoMemory>
    ensures { OnOk result ((more : Members) → Leads json.old (span_members span more) json.new more) }
{
    json.key(b"bytes")?;
    json.begin_array()?;
    json.number(alloc, span.start)?;
    json.number(alloc, span.end)?;
    json.end_array()?;
    put_count(alloc, b"line", span.line, json)?;
    Ok(())
}

/// Writes the member that says why a line is no position.
fn put_refused(alloc: Global, fault: FenFault, json: &mut JsonText) -> Result<(), NoMemory>
    ensures { OnOk result (IsMember json.old (codes "refused") (string (fen_fault_text fault)) json.new) }
{
    let mut text = Text::new(alloc);
    put_fen_fault(fault, &mut text)?;
    put_text(b"refused", text.items(), json)
}

/// Writes the members that say which line of the input a position is, by its number in the report.
fn put_place(alloc: Global, number: u64, line: u64, json: &mut JsonText) -> Result<(), NoMemory>
    ensures { OnOk result ((more : Members) → Leads json.old (member (codes "position") (count number) (member (codes "line") (count line) more)) json.new more) }
{
    put_count(alloc, b"position", number, json)?;
    put_count(alloc, b"line", line, json)?;
    Ok(())
}

/// Writes the members that say which game it is, by its number in the report.
fn put_game(alloc: Global, number: u64, span: Span, json: &mut JsonText) -> Result<(), NoMemory>
    ensures { OnOk result ((more : Members) → Leads json.old (member (codes "game") (count number) (span_members span more)) json.new more) }
{
    put_count(alloc, b"game", number, json)?;
    put_span(alloc, span, json)?;
    Ok(())
}

/// Writes the members that say which item of its text an outcome is of, by its number in the report.
#[tactic(auto, unfolding(crate::specs::Outcomes::place_members))]
fn put_which(
    alloc: Global,
    number: u64,
    outcome: &Outcome,
    json: &mut JsonText,
) -> Result<(), NoMemory>
    ensures { OnOk result ((more : Members) → Leads json.old (place_members number outcome.now more) json.new more) }
{
    match outcome {
        Outcome::JudgedPosition { line, .. } => put_place(alloc, number, *line, json),
        Outcome::ListedMates { line, .. } => put_place(alloc, number, *line, json),
        Outcome::RefusedLine { line, .. } => put_place(alloc, number, *line, json),
        Outcome::JudgedGame { game, .. } => put_game(alloc, number, game.span, json),
        Outcome::UnreadableGame { span, .. } => put_game(alloc, number, *span, json),
        Outcome::Replayed(game) => put_game(alloc, number, game.span, json),
    }
}

/// Writes the members that say what is found.
fn put_found(
    alloc: Global,
    extras: Extras,
    outcome: &Outcome,
    json: &mut JsonText,
) -> Result<(), NoMemory>
    requires printable { IsPrintableOutcome outcome.now }
    requires legal { HasLegalLines outcome.now }
    ensures { OnOk result (Leads json.old (found_members extras outcome.now) json.new no_members) }
{
    match outcome {
        Outcome::JudgedPosition {
            position,
            decision,
            status,
            ..
        } => {
            put_findings(alloc, extras, position, decision, *status, json)?;
            Ok(())
        }
        Outcome::JudgedGame {
            game,
            decision,
            scan,
            status,
            judgment,
        } => {
            put_findings(alloc, extras, &game.last, decision, *status, json)?;
            put_results(alloc, game, scan, *judgment, json)?;
            Ok(())
        }
        Outcome::ListedMates {
            position,
            depth,
            shortest,
            ..
        } => {
            put_fen(alloc, position, json)?;
            put_mates(alloc, position, *depth, shortest, json)?;
            Ok(())
        }
        Outcome::RefusedLine { fault, .. } => {
            put_refused(alloc, *fault, json)?;
            Ok(())
        }
        Outcome::UnreadableGame { why, .. } => {
            put_unreadable(alloc, why, json)?;
            Ok(())
        }
        Outcome::Replayed(game) => {
            put_replay(alloc, game, json)?;
            Ok(())
        }
    }
}

/// Writes the object on an outcome under its number.
fn put_outcome(
    alloc: Global,
    extras: Extras,
    number: u64,
    outcome: &Outcome,
    json: &mut JsonText,
) -> Result<(), NoMemory>
    requires printable { IsPrintableOutcome outcome.now }
    requires legal { HasLegalLines outcome.now }
    ensures { OnOk result (IsValue json.old (outcome_json extras number outcome.now) json.new) }
{
    json.begin_object()?;
    put_which(alloc, number, outcome, json)?;
    put_found(alloc, extras, outcome, json)?;
    json.end_object()?;
    Ok(())
}

/// Appends the line on an outcome under its number: one object of JSON (RFC 8259) without blanks, and a line feed.
///
/// ```text
/// {"position":2,"line":4,"refused":"kings"}
/// {"game":2,"bytes":[98,140],"line":7,"unreadable":"move 3 Nf6: no such move"}
/// {"game":1,"bytes":[0,9],"line":1,"start":F,"plies":[{"ply":1,"move":"e2e4","san":"e4","fen":F}],"unreadable":null}
/// ```
///
/// The verdict on a side is an object with the key `verdict`, and behind it what was found: `winnable` with `plies`, `moves`, `san`
/// and, by `extras`, `fens`; `unwinnable` with `by` (`sets`, `graph` or the name of a `Reason`), for a graph `nodes` and, by
/// `extras`, `certificate`; `undecided` with `positions` and `depth`; or `skipped`. What is written reads back as the value that is meant. The only error is
/// want of memory.
pub fn put_outcome_line(
    alloc: Global,
    extras: Extras,
    number: u64,
    outcome: &Outcome,
    text: &mut Text,
) -> Result<(), NoMemory>
    requires printable { IsPrintableOutcome outcome.now }
    requires legal { HasLegalLines outcome.now }
    ensures text { OnOk result (text.new ≡ text.old ++ outcome_line extras number outcome.now) }
    ensures reads_back { OnOk result (ReadsAs (outcome_json extras number outcome.now)) }
{
    let mut json = JsonText::new(alloc);
    put_outcome(alloc, extras, number, outcome, &mut json)?;
    text.append(json.text.items())?;
    text.append(b"\n")?;
    Ok(())
}
