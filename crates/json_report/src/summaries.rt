//! The last line of a report.

ghost use Rattle.std.specs.Prelude.{◌≡◌, ◌++◌, Option, OnOk};
ghost use Rattle.json.specs.Json.{Members, no_members};
ghost use Rattle.json_report.specs.Lines.{count};
ghost use Rattle.report_words.specs.Columns.{column_name, column_count};
ghost use Rattle.json_report.specs.Spelled.{IsMember, IsValue, Leads, ReadsAs};
ghost use Rattle.json_report.specs.Summaries.{count_members, closed_members, summary_json, json_line};

use crate::members::{put_count, put_truth};
use cha_list::{NoMemory, Text};
use cha_outcome::Totals;
use json_text::JsonText;
use report_words::Column;
use std::alloc::Global;

/// Writes the member with a number.
fn put_column(
    alloc: Global,
    column: Column,
    totals: &Totals,
    json: &mut JsonText,
) -> Result<(), NoMemory>
    ensures { OnOk result (IsMember json.old (column_name column) (count (column_count column totals.now)) json.new) }
{
    put_count(alloc, column.name(), column.count(totals), json)
}

/// Writes the members with what was counted.
fn put_counts(
    alloc: Global,
    columns: &[Column],
    totals: &Totals,
    json: &mut JsonText,
) -> Result<(), NoMemory>
    ensures { OnOk result ((more : Members) → Leads json.old (count_members columns.now totals.now more) json.new more) }
{
    for column in columns {
        put_column(alloc, *column, totals, json)?;
    }
    Ok(())
}

/// Writes the member that says whether a text of games is closed, where that is said.
#[tactic(auto, using(crate::proofs::Stepping::stays))]
fn put_closed(closed: Option<bool>, json: &mut JsonText) -> Result<(), NoMemory>
    ensures { OnOk result (Leads json.old (closed_members closed) json.new no_members) }
{
    match closed {
        None => Ok(()),
        Some(closed) => {
            put_truth(b"closed", closed, json)?;
            Ok(())
        }
    }
}

/// Writes the object with what was counted.
fn put_summary(
    alloc: Global,
    columns: &[Column],
    closed: Option<bool>,
    totals: &Totals,
    json: &mut JsonText,
) -> Result<(), NoMemory>
    ensures { OnOk result (IsValue json.old (summary_json columns.now closed totals.now) json.new) }
{
    json.begin_object()?;
    put_counts(alloc, columns, totals, json)?;
    put_closed(closed, json)?;
    json.end_object()?;
    Ok(())
}

/// Appends the last line of a report, as `{"games":2,"unreadable":1,"changed":0,"undecided":0,"closed":true}`, or
/// `{"positions":2,"refused":1,"dead":1,"undecided":0}`. A text of games is closed where a text that follows it is read as if it
/// stood alone.
pub fn put_summary_line(
    alloc: Global,
    columns: &[Column],
    closed: Option<bool>,
    totals: &Totals,
    text: &mut Text,
) -> Result<(), NoMemory>
    ensures text { OnOk result (text.new ≡ text.old ++ json_line (summary_json columns.now closed totals.now)) }
    ensures reads_back { OnOk result (ReadsAs (summary_json columns.now closed totals.now)) }
{
    let mut json = JsonText::new(alloc);
    put_summary(alloc, columns, closed, totals, &mut json)?;
    text.append(json.text.items())?;
    text.append(b"\n")?;
    Ok(())
}
