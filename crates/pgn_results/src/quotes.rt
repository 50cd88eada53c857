//! A tag pair with another value.

ghost use Rattle.std.specs.Prelude.{◌≡◌, ◌++◌, OnOk, false};
ghost use Rattle.pgn_results.specs.Replacing.{past_value as past_value_of, with_value};

use cha_list::{NoMemory, Text};
use pgn_games::{ResultMark, put_mark};

/// What follows a value, from its closing quote on.
#[tactic(auto, unfolding(crate::specs::Replacing::past_value))]
fn past_value(bytes: &[u8]) -> &[u8]
    ensures { result.now ≡ past_value_of false bytes.now }
{
    let mut escaped = false;
    let mut rest = bytes;
    while !rest.is_empty() {
        let byte = rest[0];
        if !escaped && byte == b'"' {
            return rest;
        }
        escaped = !escaped && byte == b'\\';
        rest = rest.split_at(1).1;
    }
    rest
}

/// Appends bytes that begin with a tag pair, with a result as its value.
#[tactic(auto, unfolding(crate::specs::Replacing::with_value))]
pub fn put_with_value(mark: ResultMark, bytes: &[u8], text: &mut Text) -> Result<(), NoMemory>
    ensures { OnOk result (text.new ≡ text.old ++ with_value mark bytes.now) }
{
    let mut rest = bytes;
    while !rest.is_empty() {
        let byte = rest[0];
        let (front, behind) = rest.split_at(1);
        text.append(front)?;
        if byte == b'"' {
            put_mark(mark, text)?;
            return text.append(past_value(behind));
        }
        rest = behind;
    }
    Ok(())
}
