//! The shortest mates.

ghost use Rattle.std.specs.Prelude.{◌≡◌, ◌++◌, OnOk};
ghost use Rattle.cha_outcome.specs.LegalMoves.{AreLegal};
ghost use Rattle.report_words.specs.LegalLines.{AllLegal, HaveLegalLines};
ghost use Rattle.flag_report.specs.Mates.{mate_line_text, mate_lines_text, lines_count_text, mates_text};

use crate::findings::put_notated;
use cha_board::Position;
use cha_list::{NoMemory, Text};
use cha_moves::{Move, Moves};
use helpmate_list::Shortest;
use report_style::Notation;
use report_words::put_count;
use std::alloc::Global;

/// Appends a line of moves, where it has some.
#[tactic(auto, unfolding(crate::specs::Mates::mate_line_text))]
fn put_mate_line(
    alloc: Global,
    notation: Notation,
    position: &Position,
    moves: &[Move],
    text: &mut Text,
) -> Result<(), NoMemory>
    requires { AreLegal position.now moves.now }
    ensures { OnOk result (text.new ≡ text.old ++ mate_line_text notation position.now moves.now) }
{
    if moves.is_empty() {
        return Ok(());
    }
    text.append(b"line:")?;
    put_notated(alloc, notation, position, moves, text)?;
    text.append(b"\n")?;
    Ok(())
}

/// Appends lines of moves.
#[tactic(auto, unfolding(crate::specs::Mates::mate_lines_text))]
fn put_mate_lines(
    alloc: Global,
    notation: Notation,
    position: &Position,
    lines: &[Moves],
    text: &mut Text,
) -> Result<(), NoMemory>
    requires { AllLegal position.now lines.now }
    ensures { OnOk result (text.new ≡ text.old ++ mate_lines_text notation position.now lines.now) }
{
    for moves in lines {
        put_mate_line(alloc, notation, position, moves.items(), text)?;
    }
    Ok(())
}

/// Appends how many lines there are, or that there are more than are listed.
#[tactic(auto, unfolding(crate::specs::Mates::lines_count_text))]
fn put_lines_count(alloc: Global, count: usize, more: bool, text: &mut Text) -> Result<(), NoMemory>
    ensures { OnOk result (text.new ≡ text.old ++ lines_count_text count more) }
{
    if more {
        text.append(b"over 200")
    } else {
        text.append_decimal(alloc, count as u64)
    }
}

/// Appends the lines on the shortest mates in a position within so many plies: that there are none, or in how many plies they are, how many lines
/// there are, and each of those that are listed.
#[tactic(auto, unfolding(crate::specs::Mates::mates_text))]
pub fn put_mates(
    alloc: Global,
    notation: Notation,
    position: &Position,
    depth: u8,
    shortest: &Shortest,
    text: &mut Text,
) -> Result<(), NoMemory>
    requires { HaveLegalLines position.now shortest.now }
    ensures { OnOk result (text.new ≡ text.old ++ mates_text notation position.now depth shortest.now) }
{
    match shortest {
        Shortest::NoneWithin => {
            put_count(alloc, b"no mate within ", u64::from(depth), text)?;
            text.append(b" plies\n")
        }
        Shortest::Found { plies, lines, more } => {
            put_count(alloc, b"plies: ", u64::from(*plies), text)?;
            text.append(b", lines: ")?;
            put_lines_count(alloc, lines.items().len(), *more, text)?;
            text.append(b"\n")?;
            put_mate_lines(alloc, notation, position, lines.items(), text)
        }
    }
}
