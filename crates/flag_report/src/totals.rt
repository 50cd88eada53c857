//! The last line of the output.

ghost use Rattle.std.specs.Prelude.{◌≡◌, ◌++◌, OnOk};
ghost use Rattle.flag_report.specs.Totals.{column_text, column_texts, counts_line};

use cha_list::{NoMemory, Text};
use cha_outcome::Totals;
use report_words::Column;
use std::alloc::Global;

/// Appends a number behind its name.
fn put_column(
    alloc: Global,
    column: Column,
    totals: &Totals,
    text: &mut Text,
) -> Result<(), NoMemory>
    ensures { OnOk result (text.new ≡ text.old ++ column_text column totals.now) }
{
    text.append(column.name())?;
    text.append(b": ")?;
    text.append_decimal(alloc, column.count(totals))
}

/// Appends numbers, each behind a comma.
fn put_columns(
    alloc: Global,
    columns: &[Column],
    totals: &Totals,
    text: &mut Text,
) -> Result<(), NoMemory>
    ensures { OnOk result (text.new ≡ text.old ++ column_texts columns.now totals.now) }
{
    for column in columns {
        text.append(b", ")?;
        put_column(alloc, *column, totals, text)?;
    }
    Ok(())
}

/// Appends the last line of a report, as `games: 2, unreadable: 1, changed: 1, undecided: 0`.
pub fn put_totals(
    alloc: Global,
    columns: &[Column],
    totals: &Totals,
    text: &mut Text,
) -> Result<(), NoMemory>
    ensures { OnOk result (text.new ≡ text.old ++ counts_line columns.now totals.now) }
{
    if let [first, more @ ..] = columns {
        put_column(alloc, *first, totals, text)?;
        put_columns(alloc, more, totals, text)?;
    }
    text.append(b"\n")
}
