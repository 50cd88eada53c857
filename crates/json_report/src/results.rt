//! The result of a game.

ghost use Rattle.std.specs.Prelude.{OnOk, codes};
ghost use Rattle.json.specs.Json.{no_members, string};
ghost use Rattle.pgn_games.specs.Cutting.{mark_text};
ghost use Rattle.json_report.specs.Outcomes.{article_json, edge_members, flag_json, result_members, scan_json};
ghost use Rattle.json_report.specs.Spelled.{IsMember, Leads};

use crate::members::{put_count, put_null, put_text, put_truth};
use cha_board::Color;
use cha_list::{NoMemory, Text};
use cha_outcome::{Cause, Judgment, PlayedGame, changes_result, fallen_flag};
use cha_verdict::{Edge, Scan};
use json_text::JsonText;
use pgn_games::{ResultMark, put_mark};
use std::alloc::Global;

/// Writes the member with the ply before the dead ones, where nothing was shown about it.
#[tactic(auto, using(crate::proofs::Stepping::stays))]
fn put_edge(alloc: Global, edge: Edge, ply: u32, json: &mut JsonText) -> Result<(), NoMemory>
    ensures { OnOk result (Leads json.old (edge_members edge ply) json.new no_members) }
{
    match edge {
        Edge::Start => Ok(()),
        Edge::Live => Ok(()),
        Edge::Unclear => {
            put_count(alloc, b"undecided", u64::from(ply.saturating_sub(1)), json)?;
            Ok(())
        }
    }
}

/// Writes the member that says from where on a game was dead.
#[tactic(auto, unfolding(crate::specs::Outcomes::scan_json))]
fn put_scan(alloc: Global, scan: &Option<Scan>, json: &mut JsonText) -> Result<(), NoMemory>
    ensures { OnOk result (IsMember json.old (codes "dead_from") (scan_json scan.now) json.new) }
{
    match scan {
        None => put_null(b"dead_from", json),
        Some(scan) => {
            json.key(b"dead_from")?;
            json.begin_object()?;
            put_count(alloc, b"ply", u64::from(scan.ply), json)?;
            put_edge(alloc, scan.edge, scan.ply, json)?;
            json.end_object()?;
            Ok(())
        }
    }
}

/// Writes a member with a result.
fn put_result(
    alloc: Global,
    name: &[u8],
    mark: ResultMark,
    json: &mut JsonText,
) -> Result<(), NoMemory>
    ensures { OnOk result (IsMember json.old name.now (string (mark_text mark)) json.new) }
{
    let mut text = Text::new(alloc);
    put_mark(mark, &mut text)?;
    put_text(name, text.items(), json)
}

/// Writes the member with the article of the Laws of Chess by which a game has its result.
#[tactic(auto, unfolding(crate::specs::Outcomes::article_json))]
fn put_article(cause: Cause, json: &mut JsonText) -> Result<(), NoMemory>
    ensures { OnOk result (IsMember json.old (codes "article") (article_json cause) json.new) }
{
    match cause {
        Cause::Mate511 => put_text(b"article", b"5.1.1", json),
        Cause::Stalemate521 => put_text(b"article", b"5.2.1", json),
        Cause::Dead522 => put_text(b"article", b"5.2.2", json),
        Cause::Flag69 | Cause::FlagOfMover69 => put_text(b"article", b"6.9", json),
        Cause::Recorded | Cause::RecordedUndecided => put_null(b"article", json),
    }
}

/// Writes the member that says whose flag fell, if one did.
#[tactic(auto, unfolding(crate::specs::Outcomes::flag_json))]
fn put_flag(flag: Option<Color>, json: &mut JsonText) -> Result<(), NoMemory>
    ensures { OnOk result (IsMember json.old (codes "flag") (flag_json flag) json.new) }
{
    match flag {
        Some(Color::White) => put_text(b"flag", b"white", json),
        Some(Color::Black) => put_text(b"flag", b"black", json),
        None => put_null(b"flag", json),
    }
}

/// Writes the members that say which result a game has.
pub fn put_results(
    alloc: Global,
    game: &PlayedGame,
    scan: &Option<Scan>,
    judgment: Judgment,
    json: &mut JsonText,
) -> Result<(), NoMemory>
    ensures { OnOk result (Leads json.old (result_members game.now scan.now judgment) json.new no_members) }
{
    put_scan(alloc, scan, json)?;
    put_result(alloc, b"recorded", game.recorded, json)?;
    put_result(alloc, b"result", judgment.mark, json)?;
    put_truth(b"changed", changes_result(game.recorded, judgment), json)?;
    put_article(judgment.cause, json)?;
    put_truth(b"flagged", game.forfeit, json)?;
    put_flag(fallen_flag(game, judgment.cause), json)?;
    Ok(())
}
