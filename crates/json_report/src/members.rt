//! Members of an object whose values are plain.

ghost use Rattle.std.specs.Prelude.{OnOk};
ghost use Rattle.json.specs.Json.{null, boolean, string};
ghost use Rattle.json_report.specs.Lines.{count};
ghost use Rattle.json_report.specs.Spelled.{IsMember};

use cha_list::NoMemory;
use json_text::JsonText;
use std::alloc::Global;

/// Writes a member whose value is a text.
pub fn put_text(name: &[u8], bytes: &[u8], json: &mut JsonText) -> Result<(), NoMemory>
    ensures { OnOk result (IsMember json.old name.now (string bytes.now) json.new) }
{
    json.key(name)?;
    json.string(bytes)
}

/// Writes a member whose value is a number.
pub fn put_count(
    alloc: Global,
    name: &[u8],
    number: u64,
    json: &mut JsonText,
) -> Result<(), NoMemory>
    ensures { OnOk result (IsMember json.old name.now (count number) json.new) }
{
    json.key(name)?;
    json.number(alloc, number)
}

/// Writes a member whose value is `true` or `false`.
pub fn put_truth(name: &[u8], value: bool, json: &mut JsonText) -> Result<(), NoMemory>
    ensures { OnOk result (IsMember json.old name.now (boolean value) json.new) }
{
    json.key(name)?;
    json.boolean(value)
}

/// Writes a member whose value is `null`.
pub fn put_null(name: &[u8], json: &mut JsonText) -> Result<(), NoMemory>
    ensures { OnOk result (IsMember json.old name.now null json.new) }
{
    json.key(name)?;
    json.null()
}
