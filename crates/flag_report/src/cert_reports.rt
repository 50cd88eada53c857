//! The lines on a certificate that was read and checked.

ghost use Rattle.std.specs.Prelude.{◌≡◌, ◌≢◌, ◌++◌, OnOk, IfOk};
ghost use Rattle.cert_text.specs.declared.faults.CertKind.TheVariants as kinds;
ghost use Rattle.flag_report.specs.CertReports.{accepted_text, kind_text, misfit_text, failing_text};

use crate::findings::put_count_line;
use cert_text::{CertFault, CertKind};
use cha_board::Color;
use cha_list::{NoMemory, Text};
use report_words::put_count;
use std::alloc::Global;

/// The line on a valid certificate, `accepted w` where it shows that White cannot mate, or `accepted b`.
#[tactic(auto, unfolding(crate::specs::CertReports::accepted_text))]
pub fn accepted_line(alloc: Global, winner: Color) -> Result<Text, NoMemory>
    ensures { IfOk result (λ text. text ≡ accepted_text winner) }
{
    let mut text = Text::new(alloc);
    match winner {
        Color::White => text.append(b"accepted w\n")?,
        Color::Black => text.append(b"accepted b\n")?,
    }
    Ok(text)
}

/// Appends the name of what was wanted on a line.
#[tactic(auto, unfolding(crate::specs::CertReports::kind_text))]
fn put_kind(kind: CertKind, text: &mut Text) -> Result<(), NoMemory>
    requires { kind ≢ kinds.NoMemory }
    ensures { OnOk result (text.new ≡ text.old ++ kind_text kind) }
{
    match kind {
        CertKind::Header => text.append(b"header"),
        CertKind::Winner => text.append(b"winner"),
        CertKind::Count => text.append(b"count"),
        CertKind::Node => text.append(b"node"),
        CertKind::Loose => text.append(b"loose"),
        CertKind::Reach => text.append(b"reach"),
        CertKind::End => text.append(b"end"),
        CertKind::NoMemory => unreachable!(),
        CertKind::Sets => text.append(b"sets"),
    }
}

/// The line on a text that is no certificate, as `refused: line 4 node`: the first line that does not fit, counted from 1,
/// and what was wanted there. Want of memory is no misfit.
#[tactic(auto, unfolding(crate::specs::CertReports::misfit_text))]
pub fn misfit_line(alloc: Global, fault: CertFault) -> Result<Text, NoMemory>
    requires { fault.kind ≢ kinds.NoMemory }
    ensures { IfOk result (λ text. text ≡ misfit_text fault) }
{
    let mut text = Text::new(alloc);
    put_count(alloc, b"refused: line ", fault.line, &mut text)?;
    text.append(b" ")?;
    put_kind(fault.kind, &mut text)?;
    text.append(b"\n")?;
    Ok(text)
}

/// The line on a certificate that is not valid, as `refused: node 1`: the first node that fails, counted from 0.
#[tactic(auto, unfolding(crate::specs::CertReports::failing_text))]
pub fn failing_line(alloc: Global, node: u32) -> Result<Text, NoMemory>
    ensures { IfOk result (λ text. text ≡ failing_text node) }
{
    let mut text = Text::new(alloc);
    put_count_line(alloc, b"refused: node ", u64::from(node), &mut text)?;
    Ok(text)
}
