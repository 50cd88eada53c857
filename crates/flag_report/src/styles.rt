//! What is printed in each style.

ghost use Rattle.std.specs.Prelude.{◌≡◌, ◌++◌, OnOk};
ghost use Rattle.cha_outcome.specs.Outcomes.{IsPrintableOutcome};
ghost use Rattle.report_words.specs.LegalLines.{HasLegalLines};
ghost use Rattle.flag_report.specs.Styles.{block, last_line, summary};

use crate::totals::put_totals;
use cha_list::{NoMemory, Text};
use cha_outcome::{Outcome, Totals};
use json_report::{put_outcome_line, put_summary_line};
use report_style::Style;
use report_words::Column;
use std::alloc::Global;

mod blocks;

use blocks::put_block;

/// What a report is about, which its last line counts.
#[derive(Clone, Copy, Debug, PartialEq, Eq)]
pub enum Subject {
    /// Games and their results.
    Games,
    /// Positions and their status.
    Positions,
    /// Positions and their shortest mates.
    Mates,
    /// Games and their moves.
    Plies,
}

/// Appends what is printed of an outcome under its number.
#[tactic(auto, unfolding(crate::specs::Styles::block))]
pub fn put(
    alloc: Global,
    style: Style,
    number: u64,
    outcome: &Outcome,
    text: &mut Text,
) -> Result<(), NoMemory>
    requires printable { IsPrintableOutcome outcome.now }
    requires legal { HasLegalLines outcome.now }
    ensures { OnOk result (text.new ≡ text.old ++ block style number outcome.now) }
{
    match style {
        Style::Blocks(form) => put_block(alloc, form, number, outcome, text),
        Style::Json(extras) => put_outcome_line(alloc, extras, number, outcome, text),
        Style::SummaryAlone => Ok(()),
    }
}

/// Appends what is printed at the end of a report that counts this; `closed` says of a text of games whether it is closed.
fn put_counts(
    alloc: Global,
    style: Style,
    columns: &[Column],
    closed: Option<bool>,
    totals: &Totals,
    text: &mut Text,
) -> Result<(), NoMemory>
    ensures { OnOk result (text.new ≡ text.old ++ last_line style columns.now closed totals.now) }
{
    match style {
        Style::Blocks(_) | Style::SummaryAlone => put_totals(alloc, columns, totals, text),
        Style::Json(_) => put_summary_line(alloc, columns, closed, totals, text),
    }
}

/// Appends what is printed at the end of a report; `closed` says whether a text of games is closed.
pub fn put_summary(
    alloc: Global,
    style: Style,
    subject: Subject,
    closed: bool,
    totals: &Totals,
    text: &mut Text,
) -> Result<(), NoMemory>
    ensures { OnOk result (text.new ≡ text.old ++ summary style subject closed totals.now) }
{
    match subject {
        Subject::Games => {
            let columns = [
                Column::Games,
                Column::Unreadable,
                Column::Changed,
                Column::Undecided,
            ];
            put_counts(alloc, style, &columns, Some(closed), totals, text)
        }
        Subject::Positions => {
            let columns = [
                Column::Positions,
                Column::Refused,
                Column::Dead,
                Column::Undecided,
            ];
            put_counts(alloc, style, &columns, None, totals, text)
        }
        Subject::Mates => {
            let columns = [Column::Positions, Column::Refused, Column::Found];
            put_counts(alloc, style, &columns, None, totals, text)
        }
        Subject::Plies => {
            let columns = [Column::Games, Column::Unreadable];
            put_counts(alloc, style, &columns, Some(closed), totals, text)
        }
    }
}
