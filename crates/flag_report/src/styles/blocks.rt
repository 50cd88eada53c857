//! The style of blocks.

ghost use Rattle.std.specs.Prelude.{◌≡◌, ◌++◌, OnOk, codes};
ghost use Rattle.cha_outcome.specs.Outcomes.{IsPrintableOutcome};
ghost use Rattle.flag_report.specs.Styles.{label as label_of, body, block_text};
ghost use Rattle.flag_report.specs.Findings.{line};
ghost use Rattle.report_words.specs.LegalLines.{HasLegalLines};
ghost use Rattle.report_words.specs.Reasons.{fen_fault_text};

use crate::findings::{put_count_line, put_fen, put_findings};
use crate::mates::put_mates;
use crate::plies::{put_replay, put_unreadable};
use crate::results::put_result;
use crate::scans::put_scan_part;
use cha_fen::FenFault;
use cha_list::{NoMemory, Text};
use cha_outcome::Outcome;
use report_style::BlockForm;
use report_words::put_fen_fault;
use std::alloc::Global;

/// The word in front of the number.
#[tactic(auto, unfolding(crate::specs::Styles::label))]
fn label(outcome: &Outcome) -> &'static [u8]
    ensures { result.now ≡ label_of outcome.now }
{
    match outcome {
        Outcome::JudgedGame { .. } | Outcome::UnreadableGame { .. } | Outcome::Replayed(_) => {
            b"game "
        }
        Outcome::JudgedPosition { .. }
        | Outcome::ListedMates { .. }
        | Outcome::RefusedLine { .. } => b"position ",
    }
}

/// Appends the block of an outcome under its number.
///
/// ```text
/// game 1
/// fen: 7k/8/6K1/8/8/8/8/R7 w - -
/// white: winnable in 1: a1a8
/// black: unwinnable
/// status: live
/// result: 0-1 -> 1/2-1/2 by 6.9
///
/// position 1
/// fen: 4k3/8/8/8/8/8/8/4K3 w - -
/// white: unwinnable
/// black: unwinnable
/// status: dead
///
/// position 1
/// fen: 6k1/5ppp/8/8/8/8/5PPP/3R2K1 b - -
/// plies: 2, lines: 1
/// line: g8h8 d1d8
///
/// game 1
/// fen: rnbqkbnr/pppppppp/8/8/8/8/PPPPPPPP/RNBQKBNR w KQkq -
/// ply 1: e2e4 e4 rnbqkbnr/pppppppp/8/8/4P3/8/PPPP1PPP/RNBQKBNR b KQkq e3
/// ```
///
/// A game that ends in a dead position has a line more before the result, as `dead from: ply 1`. A line that is no position has
/// `refused: shape`, and a game that cannot be read `unreadable: move 3 Ke3: no such move` alone. Where `form` says so, moves
/// are words, and the certificate of a side that cannot mate follows its line, and the certificates of an earlier dead position the line that names
/// its ply.
pub fn put_block(
    alloc: Global,
    form: BlockForm,
    number: u64,
    outcome: &Outcome,
    text: &mut Text,
) -> Result<(), NoMemory>
    requires printable { IsPrintableOutcome outcome.now }
    requires legal { HasLegalLines outcome.now }
    ensures { OnOk result (text.new ≡ text.old ++ block_text form number outcome.now) }
{
    put_count_line(alloc, label(outcome), number, text)?;
    put_body(alloc, form, outcome, text)
}

/// Appends the lines of a block behind the first.
#[tactic(auto, unfolding(crate::specs::Styles::body))]
fn put_body(
    alloc: Global,
    form: BlockForm,
    outcome: &Outcome,
    text: &mut Text,
) -> Result<(), NoMemory>
    requires printable { IsPrintableOutcome outcome.now }
    requires legal { HasLegalLines outcome.now }
    ensures { OnOk result (text.new ≡ text.old ++ body form outcome.now) }
{
    match outcome {
        Outcome::JudgedPosition {
            position,
            decision,
            status,
            ..
        } => put_findings(alloc, form, position, decision, *status, text),
        Outcome::JudgedGame {
            game,
            decision,
            scan,
            status,
            judgment,
        } => {
            put_findings(alloc, form, &game.last, decision, *status, text)?;
            put_scan_part(alloc, scan, form.certs, text)?;
            put_result(game.recorded, *judgment, text)
        }
        Outcome::ListedMates {
            position,
            depth,
            shortest,
            ..
        } => {
            put_fen(alloc, position, text)?;
            put_mates(alloc, form.notation, position, *depth, shortest, text)
        }
        Outcome::RefusedLine { fault, .. } => put_refused(*fault, text),
        Outcome::UnreadableGame { why, .. } => put_unreadable(alloc, why, text),
        Outcome::Replayed(game) => put_replay(alloc, game, text),
    }
}

/// Appends the line that says why a line is no position.
fn put_refused(fault: FenFault, text: &mut Text) -> Result<(), NoMemory>
    ensures { OnOk result (text.new ≡ text.old ++ line (codes "refused: " ++ fen_fault_text fault)) }
{
    text.append(b"refused: ")?;
    put_fen_fault(fault, text)?;
    text.append(b"\n")
}
