//! The text that says from where on a game was dead.

ghost use Rattle.std.specs.Prelude.{◌≡◌, ◌++◌, OnOk};
ghost use Rattle.cha_verdict.specs.Scans.{IsPrintableScan};
ghost use Rattle.cha_outcome.specs.Outcomes.{IsPrintableIfScanned};
ghost use Rattle.flag_report.specs.Scans.{edge_text, earlier_part, scan_text, scan_part};

use crate::findings::put_cert;
use cha_board::Color;
use cha_list::{NoMemory, Text};
use cha_verdict::{EarlierCerts, Edge, Scan};
use report_words::put_count;
use std::alloc::Global;

/// Appends that a game may have been dead earlier, where nothing was shown about the ply before.
#[tactic(auto, unfolding(crate::specs::Scans::edge_text))]
fn put_edge(alloc: Global, edge: Edge, ply: u32, text: &mut Text) -> Result<(), NoMemory>
    ensures { OnOk result (text.new ≡ text.old ++ edge_text edge ply) }
{
    match edge {
        Edge::Start => Ok(()),
        Edge::Live => Ok(()),
        Edge::Unclear => {
            put_count(
                alloc,
                b" or earlier, ply ",
                u64::from(ply.saturating_sub(1)),
                text,
            )?;
            text.append(b" undecided")
        }
    }
}

/// Appends the certificates of a dead ply that is not the last one, where certificates are printed.
#[tactic(auto, unfolding(crate::specs::Scans::earlier_part))]
fn put_earlier(
    alloc: Global,
    earlier: &Option<EarlierCerts>,
    certs: bool,
    text: &mut Text,
) -> Result<(), NoMemory>
    requires { IsPrintableScan earlier.now }
    ensures { OnOk result (text.new ≡ text.old ++ earlier_part certs earlier.now) }
{
    match earlier {
        Some(earlier) => {
            put_cert(alloc, Color::White, &earlier.white, certs, text)?;
            put_cert(alloc, Color::Black, &earlier.black, certs, text)
        }
        None => Ok(()),
    }
}

/// Appends the line `dead from: ply K` with the earliest ply that is shown dead, or `dead from: ply K or earlier, ply J undecided`,
/// and behind it the certificates of that ply, where it is not the last one and certificates are printed.
#[tactic(auto, unfolding(crate::specs::Scans::scan_text))]
fn put_scan(alloc: Global, scan: &Scan, certs: bool, text: &mut Text) -> Result<(), NoMemory>
    requires { IsPrintableScan scan.now.earlier }
    ensures { OnOk result (text.new ≡ text.old ++ scan_text scan.now certs) }
{
    put_count(alloc, b"dead from: ply ", u64::from(scan.ply), text)?;
    put_edge(alloc, scan.edge, scan.ply, text)?;
    text.append(b"\n")?;
    put_earlier(alloc, &scan.earlier, certs, text)
}

/// Appends from where on a game was dead, if it ends in a dead position.
#[tactic(auto, unfolding(crate::specs::Scans::scan_part))]
pub fn put_scan_part(
    alloc: Global,
    scan: &Option<Scan>,
    certs: bool,
    text: &mut Text,
) -> Result<(), NoMemory>
    requires { IsPrintableIfScanned scan.now }
    ensures { OnOk result (text.new ≡ text.old ++ scan_part scan.now certs) }
{
    match scan {
        Some(scan) => put_scan(alloc, scan, certs, text),
        None => Ok(()),
    }
}
