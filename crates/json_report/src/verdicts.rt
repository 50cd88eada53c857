//! The verdict on a side.

ghost use Rattle.std.specs.Prelude.{OnOk, codes};
ghost use Rattle.cert_text.specs.SharedSpelled.{shared_text};
ghost use Rattle.cha_cert.specs.Shared.{shared_of};
ghost use Rattle.cha_verdict.specs.Verdicts.{IsPrintable};
ghost use Rattle.cha_verdict.specs.declared.verdicts.Verdict.TheVariants.{Unwinnable};
ghost use Rattle.json.specs.Json.{no_members, string};
ghost use Rattle.cha_outcome.specs.LegalMoves.{AreLegal};
ghost use Rattle.report_words.specs.LegalLines.{IsOfLegalMoves};
ghost use Rattle.json_report.specs.Spelled.{IsMember, Leads};
ghost use Rattle.json_report.specs.Verdicts.{cert_members, fen_members, verdict_json, verdict_members};

use crate::grounds::{ground_of, put_ground};
use crate::lines::{put_fens, put_line};
use crate::members::{put_count, put_text};
use cert_text::write2;
use cha_board::{Color, Position};
use cha_cert::{Cert, share};
use cha_list::NoMemory;
use cha_moves::Move;
use cha_verdict::Verdict;
use json_text::JsonText;
use report_style::Extras;
use std::alloc::Global;

/// Writes the positions after the moves of a line, where these are printed.
#[tactic(auto, using(crate::proofs::Stepping::stays))]
fn put_fens_if(
    alloc: Global,
    fens: bool,
    position: &Position,
    moves: &[Move],
    json: &mut JsonText,
) -> Result<(), NoMemory>
    requires { AreLegal position.now moves.now }
    ensures { OnOk result (Leads json.old (fen_members fens position.now moves.now) json.new no_members) }
{
    if fens {
        put_fens(alloc, position, moves, json)?;
    }
    Ok(())
}

/// Writes the member with a certificate, its equal sets written once.
fn put_cert(alloc: Global, winner: Color, cert: &Cert, json: &mut JsonText) -> Result<(), NoMemory>
    requires { IsPrintable (Unwinnable cert.now) }
    ensures { OnOk result (IsMember json.old (codes "certificate") (string (shared_text winner (shared_of cert.now))) json.new) }
{
    let shared = share(alloc, cert)?;
    let written = write2(alloc, winner, &shared)?;
    put_text(b"certificate", written.items(), json)
}

/// Writes a certificate, where certificates are printed.
#[tactic(auto, using(crate::proofs::Stepping::stays))]
fn put_cert_if(
    alloc: Global,
    certs: bool,
    winner: Color,
    cert: &Cert,
    json: &mut JsonText,
) -> Result<(), NoMemory>
    requires { IsPrintable (Unwinnable cert.now) }
    ensures { OnOk result (Leads json.old (cert_members certs winner cert.now) json.new no_members) }
{
    if certs {
        put_cert(alloc, winner, cert, json)?;
    }
    Ok(())
}

/// Writes what is found about a side in a position.
fn put_found(
    alloc: Global,
    extras: Extras,
    position: &Position,
    winner: Color,
    verdict: &Verdict,
    json: &mut JsonText,
) -> Result<(), NoMemory>
    requires printable { IsPrintable verdict.now }
    requires legal { IsOfLegalMoves position.now verdict.now }
    ensures { OnOk result (Leads json.old (verdict_members extras position.now winner verdict.now) json.new no_members) }
{
    match verdict {
        Verdict::Winnable(moves) => {
            let moves = moves.items();
            put_text(b"verdict", b"winnable", json)?;
            put_count(alloc, b"plies", moves.len() as u64, json)?;
            put_line(alloc, position, moves, json)?;
            put_fens_if(alloc, extras.fens, position, moves, json)?;
            Ok(())
        }
        Verdict::Unwinnable(cert) => {
            let nodes = cert.nodes();
            put_text(b"verdict", b"unwinnable", json)?;
            put_ground(alloc, ground_of(nodes), nodes.len(), json)?;
            put_cert_if(alloc, extras.certs, winner, cert, json)?;
            Ok(())
        }
        Verdict::Undecided { positions, depth } => {
            put_text(b"verdict", b"undecided", json)?;
            put_count(alloc, b"positions", u64::from(*positions), json)?;
            put_count(alloc, b"depth", u64::from(*depth), json)?;
            Ok(())
        }
        Verdict::Skipped => {
            put_text(b"verdict", b"skipped", json)?;
            Ok(())
        }
    }
}

/// Writes a member with the verdict on a side in a position.
pub fn put_verdict(
    alloc: Global,
    extras: Extras,
    name: &[u8],
    position: &Position,
    winner: Color,
    verdict: &Verdict,
    json: &mut JsonText,
) -> Result<(), NoMemory>
    requires printable { IsPrintable verdict.now }
    requires legal { IsOfLegalMoves position.now verdict.now }
    ensures { OnOk result (IsMember json.old name.now (verdict_json extras position.now winner verdict.now) json.new) }
{
    json.key(name)?;
    json.begin_object()?;
    put_found(alloc, extras, position, winner, verdict, json)?;
    json.end_object()?;
    Ok(())
}
