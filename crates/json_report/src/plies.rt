//! The moves of a game.

ghost use Rattle.std.specs.Prelude.{OnOk, Contains, codes};
ghost use Rattle.cha_moves.specs.Moves.{legal};
ghost use Rattle.cha_moves.specs.Texts.{move_bytes};
ghost use Rattle.cha_outcome.specs.LegalMoves.{AreLegal, AreLegalFrom};
ghost use Rattle.json.specs.Json.{no_items, no_members, array, string};
ghost use Rattle.report_words.specs.Reasons.{reason_text};
ghost use Rattle.json_report.specs.Plies.{ply_json, ply_items, plies_from, replay_members, start_json, why_json};
ghost use Rattle.json_report.specs.Spelled.{IsMember, IsValue, Leads, ItemsLead};

use crate::members::{put_count, put_null, put_text};
use cha_board::Position;
use cha_fen::write;
use cha_list::{NoMemory, Text};
use cha_moves::{Move, after, move_text};
use cha_outcome::{ReplayedGame, Unreadable};
use cha_san::san;
use json_text::JsonText;
use report_words::put_reason;
use std::alloc::Global;

/// Writes the member with the squares of a move.
fn put_squares(m: Move, json: &mut JsonText) -> Result<(), NoMemory>
    ensures { OnOk result (IsMember json.old (codes "move") (string (move_bytes m)) json.new) }
{
    put_text(b"move", move_text(m).as_bytes(), json)
}

/// Writes a move under its number.
fn put_ply(
    alloc: Global,
    number: u64,
    position: &Position,
    m: Move,
    json: &mut JsonText,
) -> Result<(), NoMemory>
    requires { Contains (legal position.now) m }
    ensures { OnOk result (IsValue json.old (ply_json number position.now m) json.new) }
{
    let word = san(alloc, position, m)?;
    let fen = write(alloc, &after(position, m))?;
    json.begin_object()?;
    put_count(alloc, b"ply", number, json)?;
    put_squares(m, json)?;
    put_text(b"san", word.items(), json)?;
    put_text(b"fen", fen.items(), json)?;
    json.end_object()?;
    Ok(())
}

/// Writes moves that are made one after the other, numbered from 1.
fn put_each(
    alloc: Global,
    position: &Position,
    moves: &[Move],
    json: &mut JsonText,
) -> Result<(), NoMemory>
    requires { AreLegal position.now moves.now }
    ensures { OnOk result (ItemsLead json.old (ply_items 1 position.now moves.now) json.new no_items) }
{
    let mut now = *position;
    let mut number = 0;
    for m in moves {
        number += 1;
        put_ply(alloc, number, &now, *m, json)?;
        now = after(&now, *m);
    }
    Ok(())
}

/// Writes moves from a position, if it is known.
#[tactic(auto, using(crate::proofs::Stepping::items_stay), unfolding(crate::specs::Plies::plies_from))]
fn put_from(
    alloc: Global,
    start: &Option<Position>,
    moves: &[Move],
    json: &mut JsonText,
) -> Result<(), NoMemory>
    requires { AreLegalFrom start.now moves.now }
    ensures { OnOk result (ItemsLead json.old (plies_from start.now moves.now) json.new no_items) }
{
    match start {
        None => Ok(()),
        Some(position) => put_each(alloc, position, moves, json),
    }
}

/// Writes the member with the moves of a game.
fn put_plies(
    alloc: Global,
    start: &Option<Position>,
    moves: &[Move],
    json: &mut JsonText,
) -> Result<(), NoMemory>
    requires { AreLegalFrom start.now moves.now }
    ensures { OnOk result (IsMember json.old (codes "plies") (array (plies_from start.now moves.now)) json.new) }
{
    json.key(b"plies")?;
    json.begin_array()?;
    put_from(alloc, start, moves, json)?;
    json.end_array()?;
    Ok(())
}

/// Writes the member with the position from which a game starts.
#[tactic(auto, unfolding(crate::specs::Plies::start_json))]
fn put_start(alloc: Global, start: &Option<Position>, json: &mut JsonText) -> Result<(), NoMemory>
    ensures { OnOk result (IsMember json.old (codes "start") (start_json start.now) json.new) }
{
    match start {
        None => put_null(b"start", json),
        Some(position) => {
            let fen = write(alloc, position)?;
            put_text(b"start", fen.items(), json)
        }
    }
}

/// Writes the member that says why a game cannot be read.
pub fn put_unreadable(alloc: Global, why: &Unreadable, json: &mut JsonText) -> Result<(), NoMemory>
    ensures { OnOk result (IsMember json.old (codes "unreadable") (string (reason_text why.now)) json.new) }
{
    let mut text = Text::new(alloc);
    put_reason(alloc, why, &mut text)?;
    put_text(b"unreadable", text.items(), json)
}

/// Writes the member that says why a game cannot be read, if it cannot.
#[tactic(auto, unfolding(crate::specs::Plies::why_json))]
fn put_why(alloc: Global, why: &Option<Unreadable>, json: &mut JsonText) -> Result<(), NoMemory>
    ensures { OnOk result (IsMember json.old (codes "unreadable") (why_json why.now) json.new) }
{
    match why {
        None => put_null(b"unreadable", json),
        Some(why) => put_unreadable(alloc, why, json),
    }
}

/// Writes the members that say the moves of a game.
pub fn put_replay(alloc: Global, game: &ReplayedGame, json: &mut JsonText) -> Result<(), NoMemory>
    requires { AreLegalFrom game.now.start game.now.moves }
    ensures { OnOk result (Leads json.old (replay_members game.now) json.new no_members) }
{
    put_start(alloc, &game.start, json)?;
    put_plies(alloc, &game.start, game.moves.items(), json)?;
    put_why(alloc, &game.why, json)?;
    Ok(())
}
