//! The shortest mates.

ghost use Rattle.std.specs.Prelude.{OnOk, codes};
ghost use Rattle.json.specs.Json.{no_members, array};
ghost use Rattle.cha_outcome.specs.LegalMoves.{AreLegal};
ghost use Rattle.report_words.specs.LegalLines.{AllLegal, HaveLegalLines};
ghost use Rattle.json_report.specs.Outcomes.{line_json, line_items, mates_members};
ghost use Rattle.json_report.specs.Spelled.{IsMember, IsValue, Leads};

use crate::lines::put_line;
use crate::members::{put_count, put_null, put_truth};
use cha_board::Position;
use cha_list::NoMemory;
use cha_moves::{Move, Moves};
use helpmate_list::Shortest;
use json_text::JsonText;
use std::alloc::Global;

/// Writes a line of moves.
fn put_one(
    alloc: Global,
    position: &Position,
    moves: &[Move],
    json: &mut JsonText,
) -> Result<(), NoMemory>
    requires { AreLegal position.now moves.now }
    ensures { OnOk result (IsValue json.old (line_json position.now moves.now) json.new) }
{
    json.begin_object()?;
    put_line(alloc, position, moves, json)?;
    json.end_object()?;
    Ok(())
}

/// Writes the member with all lines of moves.
fn put_lines(
    alloc: Global,
    position: &Position,
    lines: &[Moves],
    json: &mut JsonText,
) -> Result<(), NoMemory>
    requires { AllLegal position.now lines.now }
    ensures { OnOk result (IsMember json.old (codes "lines") (array (line_items position.now lines.now)) json.new) }
{
    json.key(b"lines")?;
    json.begin_array()?;
    for moves in lines {
        put_one(alloc, position, moves.items(), json)?;
    }
    json.end_array()?;
    Ok(())
}

/// Writes the members on the shortest mates in a position within so many plies.
#[tactic(auto, unfolding(crate::specs::Outcomes::mates_members))]
pub fn put_mates(
    alloc: Global,
    position: &Position,
    depth: u8,
    shortest: &Shortest,
    json: &mut JsonText,
) -> Result<(), NoMemory>
    requires { HaveLegalLines position.now shortest.now }
    ensures { OnOk result (Leads json.old (mates_members position.now depth shortest.now) json.new no_members) }
{
    match shortest {
        Shortest::NoneWithin => {
            put_null(b"plies", json)?;
            put_count(alloc, b"depth", u64::from(depth), json)?;
            Ok(())
        }
        Shortest::Found { plies, lines, more } => {
            put_count(alloc, b"plies", u64::from(*plies), json)?;
            put_lines(alloc, position, lines.items(), json)?;
            put_truth(b"more", *more, json)?;
            Ok(())
        }
    }
}
