//! The second and the third line of a text.

ghost use Rattle.std.specs.Prelude.{◌≤◌, drop, length, ◌≡◌, ◌<◌, IfOk};
ghost use Rattle.cert_text.specs.declared.faults.CertKind.TheVariants.{Winner, Count};
ghost use Rattle.cert_text.specs.TextLines.{lines_of, tail_of};
ghost use Rattle.cert_text.specs.Texts.{winner_of, count_of, wanted};
ghost use Rattle.cert_text.specs.Agreeing.{Agrees, seen};

use crate::digits::number;
use crate::faults::{CertFault, CertKind};
use crate::rest::Left;
use crate::spelled::put_count;
use crate::text_lines::{misfit, next_line};
use cha_board::Color;
use cha_list::{NoMemory, Text};
use std::alloc::Global;

/// The side of a line `winner w` or `winner b`.
#[tactic(auto, unfolding(crate::specs::Texts::winner_of, crate::specs::Spelled::winner_line))]
fn winner_named(line: &[u8]) -> Option<Color>
    ensures { result ≡ winner_of line.now }
{
    if line == b"winner w".as_slice() {
        Some(Color::White)
    } else if line == b"winner b".as_slice() {
        Some(Color::Black)
    } else {
        None
    }
}

/// The side that cannot mate.
#[tactic(auto, unfolding(crate::specs::Texts::wanted))]
pub fn winner_line(bytes: &[u8], left: Left) -> Result<(Color, Left), CertFault>
    requires { left.at ≤ length bytes.now }
    ensures said { Agrees (λ read. seen bytes.now read.0 read.1) result (wanted winner_of Winner left.number (lines_of (drop left.at bytes.now))) }
    ensures inside { IfOk result (λ read. read.1.at ≤ length bytes.now) }
    ensures tail { IfOk result (λ read. tail_of (drop read.1.at bytes.now) ≡ tail_of (drop left.at bytes.now)) }
{
    let Some((line, rest)) = next_line(bytes, left) else {
        return Err(misfit(left.number, CertKind::Winner));
    };
    match winner_named(line) {
        Some(winner) => Ok((winner, rest)),
        None => Err(misfit(left.number, CertKind::Winner)),
    }
}

/// The number of a line `nodes N`.
#[tactic(auto, unfolding(crate::specs::Texts::count_of))]
fn count_named(alloc: Global, line: &[u8]) -> Result<Option<u32>, NoMemory>
    ensures { IfOk result (λ count. count ≡ count_of line.now) }
{
    if line.len() < 7 || line.len() > 16 {
        return Ok(None);
    }
    let (_label, digits) = line.split_at(6);
    let count = number(10, digits);
    if count == 0 || count > 0xffff_ffff {
        return Ok(None);
    }
    let mut text = Text::new(alloc);
    put_count(alloc, count, &mut text)?;
    Ok(if text.items() == line {
        Some(count as u32)
    } else {
        None
    })
}

/// The number of nodes.
#[tactic(auto, unfolding(crate::specs::Texts::wanted))]
pub fn count_line(alloc: Global, bytes: &[u8], left: Left) -> Result<(u32, Left), CertFault>
    requires { left.at ≤ length bytes.now }
    ensures said { Agrees (λ read. seen bytes.now read.0 read.1) result (wanted count_of Count left.number (lines_of (drop left.at bytes.now))) }
    ensures inside { IfOk result (λ read. read.1.at ≤ length bytes.now) }
    ensures tail { IfOk result (λ read. tail_of (drop read.1.at bytes.now) ≡ tail_of (drop left.at bytes.now)) }
{
    let Some((line, rest)) = next_line(bytes, left) else {
        return Err(misfit(left.number, CertKind::Count));
    };
    match count_named(alloc, line)? {
        Some(count) => Ok((count, rest)),
        None => Err(misfit(left.number, CertKind::Count)),
    }
}
