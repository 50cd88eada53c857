//! The moves of a game.

ghost use Rattle.std.specs.Prelude.{◌≡◌, ◌++◌, OnOk, Contains};
ghost use Rattle.cha_moves.specs.Moves.{legal};
ghost use Rattle.cha_outcome.specs.LegalMoves.{AreLegal, AreLegalFrom};
ghost use Rattle.flag_report.specs.Plies.{ply_text, ply_texts, moves_part, unreadable_line, why_part, replay_text};

use crate::findings::{put_fen, put_notated};
use cha_board::Position;
use cha_fen::write;
use cha_list::{NoMemory, Text};
use cha_moves::{Move, after};
use cha_outcome::{ReplayedGame, Unreadable};
use report_style::Notation;
use report_words::{put_count, put_reason};
use std::alloc::Global;

/// Appends the line on a move under its number.
#[tactic(auto, unfolding(crate::specs::Plies::ply_text))]
fn put_ply(
    alloc: Global,
    number: u64,
    position: &Position,
    m: Move,
    text: &mut Text,
) -> Result<(), NoMemory>
    requires { Contains (legal position.now) m }
    ensures { OnOk result (text.new ≡ text.old ++ ply_text number position.now m) }
{
    let fen = write(alloc, &after(position, m))?;
    put_count(alloc, b"ply ", number, text)?;
    text.append(b":")?;
    put_notated(alloc, Notation::Coordinates, position, &[m], text)?;
    put_notated(alloc, Notation::San, position, &[m], text)?;
    text.append(b" ")?;
    text.append(fen.items())?;
    text.append(b"\n")?;
    Ok(())
}

/// Appends the lines on moves that are made one after the other, numbered from 1.
#[tactic(auto, unfolding(crate::specs::Plies::ply_texts))]
fn put_plies(
    alloc: Global,
    position: &Position,
    moves: &[Move],
    text: &mut Text,
) -> Result<(), NoMemory>
    requires { AreLegal position.now moves.now }
    ensures { OnOk result (text.new ≡ text.old ++ ply_texts 1 position.now moves.now) }
{
    let mut now = *position;
    let mut number = 0;
    for m in moves {
        number += 1;
        put_ply(alloc, number, &now, *m, text)?;
        now = after(&now, *m);
    }
    Ok(())
}

/// Appends the line with the position from which a game starts, if it is known, and those on its moves.
#[tactic(auto, unfolding(crate::specs::Plies::moves_part))]
fn put_moves_part(
    alloc: Global,
    start: &Option<Position>,
    moves: &[Move],
    text: &mut Text,
) -> Result<(), NoMemory>
    requires { AreLegalFrom start.now moves.now }
    ensures { OnOk result (text.new ≡ text.old ++ moves_part start.now moves.now) }
{
    match start {
        None => Ok(()),
        Some(position) => {
            put_fen(alloc, position, text)?;
            put_plies(alloc, position, moves, text)
        }
    }
}

/// Appends the line that says why a game cannot be read.
#[tactic(auto, unfolding(crate::specs::Plies::unreadable_line))]
pub fn put_unreadable(alloc: Global, why: &Unreadable, text: &mut Text) -> Result<(), NoMemory>
    ensures { OnOk result (text.new ≡ text.old ++ unreadable_line why.now) }
{
    text.append(b"unreadable: ")?;
    put_reason(alloc, why, text)?;
    text.append(b"\n")?;
    Ok(())
}

/// Appends the lines on the moves of a game.
#[tactic(auto, unfolding(crate::specs::Plies::why_part))]
pub fn put_replay(alloc: Global, game: &ReplayedGame, text: &mut Text) -> Result<(), NoMemory>
    requires { AreLegalFrom game.now.start game.now.moves }
    ensures { OnOk result (text.new ≡ text.old ++ replay_text game.now) }
{
    put_moves_part(alloc, &game.start, game.moves.items(), text)?;
    match &game.why {
        None => Ok(()),
        Some(why) => put_unreadable(alloc, why, text),
    }
}
