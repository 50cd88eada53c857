//! What is found about a position.

ghost use Rattle.std.specs.Prelude.{◌≡◌, ◌++◌, OnOk};
ghost use Rattle.report_words.specs.Counts.{count_text};
ghost use Rattle.cha_outcome.specs.LegalMoves.{AreLegal};
ghost use Rattle.report_words.specs.LegalLines.{AreOfLegalMoves, IsOfLegalMoves};
ghost use Rattle.flag_report.specs.Findings.{line, moves_text, words_text, notated, winnable_text, undecided_text, verdict_text, cert_part, side_text, fen_line, findings_text};
ghost use Rattle.cha_outcome.specs.Outcomes.{ArePrintable};
ghost use Rattle.cha_verdict.specs.Verdicts.{IsPrintable};
ghost use Rattle.cha_verdict.specs.declared.verdicts.Verdict.TheVariants.{Unwinnable};

use cert_text::write2;
use cha_board::{Color, Position};
use cha_cert::{Cert, share};
use cha_fen::write;
use cha_list::{NoMemory, Text};
use cha_moves::{Move, after, move_text};
use cha_outcome::PositionStatus;
use cha_san::san;
use cha_verdict::{Decision, Verdict};
use report_style::{BlockForm, Notation};
use report_words::{put_count, put_status};
use std::alloc::Global;

/// Appends a line with a count behind its label.
pub fn put_count_line(
    alloc: Global,
    label: &[u8],
    count: u64,
    text: &mut Text,
) -> Result<(), NoMemory>
    ensures { OnOk result (text.new ≡ text.old ++ line (count_text label.now count)) }
{
    put_count(alloc, label, count, text)?;
    text.append(b"\n")?;
    Ok(())
}

/// Appends the texts of moves, each behind a space.
#[tactic(auto, unfolding(crate::specs::Findings::moves_text))]
pub fn put_moves(moves: &[Move], text: &mut Text) -> Result<(), NoMemory>
    ensures { OnOk result (text.new ≡ text.old ++ moves_text moves.now) }
{
    for m in moves {
        text.append(b" ")?;
        text.append(move_text(*m).as_bytes())?;
    }
    Ok(())
}

/// Appends the words of moves that are made one after the other, each behind a space.
#[tactic(auto, unfolding(crate::specs::Findings::words_text))]
fn put_words(
    alloc: Global,
    position: &Position,
    moves: &[Move],
    text: &mut Text,
) -> Result<(), NoMemory>
    requires { AreLegal position.now moves.now }
    ensures { OnOk result (text.new ≡ text.old ++ words_text position.now moves.now) }
{
    let mut now = *position;
    for m in moves {
        let word = san(alloc, &now, *m)?;
        text.append(b" ")?;
        text.append(word.items())?;
        now = after(&now, *m);
    }
    Ok(())
}

/// Appends a line of moves in a notation.
pub fn put_notated(
    alloc: Global,
    notation: Notation,
    position: &Position,
    moves: &[Move],
    text: &mut Text,
) -> Result<(), NoMemory>
    requires { AreLegal position.now moves.now }
    ensures { OnOk result (text.new ≡ text.old ++ notated notation position.now moves.now) }
{
    match notation {
        Notation::Coordinates => put_moves(moves, text),
        Notation::San => put_words(alloc, position, moves, text),
    }
}

/// Appends the text of moves that mate.
#[tactic(auto, unfolding(crate::specs::Findings::winnable_text))]
fn put_winnable(
    alloc: Global,
    notation: Notation,
    position: &Position,
    moves: &[Move],
    text: &mut Text,
) -> Result<(), NoMemory>
    requires { AreLegal position.now moves.now }
    ensures { OnOk result (text.new ≡ text.old ++ winnable_text notation position.now moves.now) }
{
    if moves.is_empty() {
        return text.append(b"winnable in 0");
    }
    text.append(b"winnable in ")?;
    text.append_decimal(alloc, moves.len() as u64)?;
    text.append(b":")?;
    put_notated(alloc, notation, position, moves, text)
}

/// Appends the text of a search that spent its budget and found nothing.
#[tactic(auto, unfolding(crate::specs::Findings::undecided_text))]
fn put_undecided(alloc: Global, positions: u32, depth: u8, text: &mut Text) -> Result<(), NoMemory>
    ensures { OnOk result (text.new ≡ text.old ++ undecided_text positions depth) }
{
    put_count(alloc, b"undecided after ", u64::from(positions), text)?;
    put_count(alloc, b" positions, depth ", u64::from(depth), text)?;
    Ok(())
}

/// Appends the text of a verdict on a side in a position.
#[tactic(auto, unfolding(crate::specs::Findings::verdict_text))]
fn put_verdict(
    alloc: Global,
    notation: Notation,
    position: &Position,
    verdict: &Verdict,
    text: &mut Text,
) -> Result<(), NoMemory>
    requires { IsOfLegalMoves position.now verdict.now }
    ensures { OnOk result (text.new ≡ text.old ++ verdict_text notation position.now verdict.now) }
{
    match verdict {
        Verdict::Winnable(moves) => put_winnable(alloc, notation, position, moves.items(), text),
        Verdict::Unwinnable(_) => text.append(b"unwinnable"),
        Verdict::Undecided { positions, depth } => put_undecided(alloc, *positions, *depth, text),
        Verdict::Skipped => text.append(b"skipped"),
    }
}

/// Appends a certificate, where certificates are printed.
#[tactic(auto, unfolding(crate::specs::Findings::cert_part))]
pub fn put_cert(
    alloc: Global,
    winner: Color,
    cert: &Cert,
    certs: bool,
    text: &mut Text,
) -> Result<(), NoMemory>
    requires { IsPrintable (Unwinnable cert.now) }
    ensures { OnOk result (text.new ≡ text.old ++ cert_part certs winner (Unwinnable cert.now)) }
{
    if !certs {
        return Ok(());
    }
    let shared = share(alloc, cert)?;
    let written = write2(alloc, winner, &shared)?;
    text.append(written.items())
}

/// Appends the certificate of a side that cannot mate, where certificates are printed.
#[tactic(auto, unfolding(crate::specs::Findings::cert_part))]
fn put_cert_of(
    alloc: Global,
    winner: Color,
    verdict: &Verdict,
    certs: bool,
    text: &mut Text,
) -> Result<(), NoMemory>
    requires { IsPrintable verdict.now }
    ensures { OnOk result (text.new ≡ text.old ++ cert_part certs winner verdict.now) }
{
    match verdict {
        Verdict::Unwinnable(cert) => put_cert(alloc, winner, cert, certs, text),
        _ => Ok(()),
    }
}

/// Appends a line with the verdict on a side behind its label, and the certificate behind the line.
fn put_side(
    alloc: Global,
    form: BlockForm,
    label: &[u8],
    position: &Position,
    winner: Color,
    verdict: &Verdict,
    text: &mut Text,
) -> Result<(), NoMemory>
    requires printable { IsPrintable verdict.now }
    requires legal { IsOfLegalMoves position.now verdict.now }
    ensures { OnOk result (text.new ≡ text.old ++ side_text form label.now position.now winner verdict.now) }
{
    text.append(label)?;
    put_verdict(alloc, form.notation, position, verdict, text)?;
    text.append(b"\n")?;
    put_cert_of(alloc, winner, verdict, form.certs, text)
}

/// Appends the line with the FEN of a position.
pub fn put_fen(alloc: Global, position: &Position, text: &mut Text) -> Result<(), NoMemory>
    ensures { OnOk result (text.new ≡ text.old ++ fen_line position.now) }
{
    text.append(b"fen: ")?;
    let fen = write(alloc, position)?;
    text.append(fen.items())?;
    text.append(b"\n")?;
    Ok(())
}

/// Appends the four lines on a position that the blocks of positions and of games share, with the certificates between
/// them.
#[tactic(auto, unfolding(crate::specs::Findings::findings_text))]
pub fn put_findings(
    alloc: Global,
    form: BlockForm,
    position: &Position,
    decision: &Decision,
    status: PositionStatus,
    text: &mut Text,
) -> Result<(), NoMemory>
    requires printable { ArePrintable decision.now }
    requires legal { AreOfLegalMoves position.now decision.now }
    ensures { OnOk result (text.new ≡ text.old ++ findings_text form position.now decision.now status) }
{
    put_fen(alloc, position, text)?;
    put_side(
        alloc,
        form,
        b"white: ",
        position,
        Color::White,
        &decision.white,
        text,
    )?;
    put_side(
        alloc,
        form,
        b"black: ",
        position,
        Color::Black,
        &decision.black,
        text,
    )?;
    text.append(b"status: ")?;
    put_status(status, text)?;
    text.append(b"\n")
}
