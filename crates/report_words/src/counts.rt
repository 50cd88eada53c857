//! Counts behind their labels.

ghost use Rattle.std.specs.Prelude.{◌≡◌, ◌++◌, OnOk};
ghost use Rattle.report_words.specs.Counts.{count_text};

use cha_list::{NoMemory, Text};
use std::alloc::Global;

/// Appends a count behind its label.
pub fn put_count(alloc: Global, label: &[u8], count: u64, text: &mut Text) -> Result<(), NoMemory>
    ensures { OnOk result (text.new ≡ text.old ++ count_text label.now count) }
{
    text.append(label)?;
    text.append_decimal(alloc, count)?;
    Ok(())
}
