//! Lines of moves: by their squares, as words, and by the positions after them.

ghost use Rattle.std.specs.Prelude.{map, OnOk, codes};
ghost use Rattle.cha_moves.specs.Texts.{move_bytes};
ghost use Rattle.json.specs.Json.{array, Members};
ghost use Rattle.json_report.specs.Lines.{texts, words_of, fens_of, line_members};
ghost use Rattle.cha_outcome.specs.LegalMoves.{AreLegal};
ghost use Rattle.json_report.specs.Spelled.{IsMember, Leads};

use cha_board::Position;
use cha_fen::write;
use cha_list::NoMemory;
use cha_moves::{Move, after, move_text};
use cha_san::san;
use json_text::JsonText;
use std::alloc::Global;

/// Writes the member with the moves of a line by their squares.
fn put_moves(moves: &[Move], json: &mut JsonText) -> Result<(), NoMemory>
    ensures { OnOk result (IsMember json.old (codes "moves") (array (texts (map move_bytes moves.now))) json.new) }
{
    json.key(b"moves")?;
    json.begin_array()?;
    for m in moves {
        json.string(move_text(*m).as_bytes())?;
    }
    json.end_array()?;
    Ok(())
}

/// Writes the member with the words of the moves of a line.
fn put_words(
    alloc: Global,
    position: &Position,
    moves: &[Move],
    json: &mut JsonText,
) -> Result<(), NoMemory>
    requires { AreLegal position.now moves.now }
    ensures { OnOk result (IsMember json.old (codes "san") (array (texts (words_of position.now moves.now))) json.new) }
{
    json.key(b"san")?;
    json.begin_array()?;
    let mut now = *position;
    for m in moves {
        let word = san(alloc, &now, *m)?;
        json.string(word.items())?;
        now = after(&now, *m);
    }
    json.end_array()?;
    Ok(())
}

/// Writes the member with the position after each move of a line.
pub fn put_fens(
    alloc: Global,
    position: &Position,
    moves: &[Move],
    json: &mut JsonText,
) -> Result<(), NoMemory>
    requires { AreLegal position.now moves.now }
    ensures { OnOk result (IsMember json.old (codes "fens") (array (texts (fens_of position.now moves.now))) json.new) }
{
    json.key(b"fens")?;
    json.begin_array()?;
    let mut now = *position;
    for m in moves {
        now = after(&now, *m);
        let fen = write(alloc, &now)?;
        json.string(fen.items())?;
    }
    json.end_array()?;
    Ok(())
}

/// Writes the members that say a line of moves.
pub fn put_line(
    alloc: Global,
    position: &Position,
    moves: &[Move],
    json: &mut JsonText,
) -> Result<(), NoMemory>
    requires { AreLegal position.now moves.now }
    ensures { OnOk result ((more : Members) → Leads json.old (line_members position.now moves.now more) json.new more) }
{
    put_moves(moves, json)?;
    put_words(alloc, position, moves, json)?;
    Ok(())
}
