//! The lines behind a leaf's line: its loose origins and its rows.

ghost use Rattle.std.specs.Prelude.{◌≤◌, drop, length, ◌≡◌, ◌≢◌, ◌<◌, [], Err, IsTrue, IfOk, IfErr, IfSome};
ghost use Rattle.std.specs.Prelude.{nat_lt};
ghost use Rattle.std.specs.List.{list_all};
ghost use Rattle.cha_board.specs.SquareSets.{set_of_bits};
ghost use Rattle.mob_sets.specs.Rows.{row_place};
ghost use Rattle.mob_sets.specs.Tidy.{AreTidy};
ghost use Rattle.cert_text.specs.declared.faults.CertKind.TheVariants.{Loose, NoMemory as Wanting};
ghost use Rattle.cert_text.specs.TextLines.{lines_of, tail_of};
ghost use Rattle.cert_text.specs.Texts.{loose_of, row_if, follows, row_of, begins_reach, wanted, rows_after};
ghost use Rattle.cert_text.specs.Agreeing.{Agrees, seen, RowGoesOn};

use crate::digits::number;
use crate::faults::{CertFault, CertKind};
use crate::rest::Left;
use crate::spelled::{put_loose, put_row};
use crate::text_lines::{misfit, next_line};
use cha_board::{Kind, Square, SquareSet};
use cha_list::{NoMemory, Text};
use mob_sets::SetRow;
use std::alloc::Global;

/// The set of a line `loose H`.
#[tactic(auto, unfolding(crate::specs::Texts::loose_of))]
fn loose_named(alloc: Global, line: &[u8]) -> Result<Option<SquareSet>, NoMemory>
    ensures { IfOk result (λ loose. loose ≡ loose_of line.now) }
{
    if line.len() != 22 {
        return Ok(None);
    }
    let (_label, digits) = line.split_at(6);
    let loose = SquareSet::from_bits(number(16, digits));
    let mut text = Text::new(alloc);
    put_loose(loose, &mut text)?;
    Ok(if line == text.items() {
        Some(loose)
    } else {
        None
    })
}

/// The set of the loose origins.
#[tactic(auto, unfolding(crate::specs::Texts::wanted))]
pub fn loose_line(alloc: Global, bytes: &[u8], left: Left) -> Result<(SquareSet, Left), CertFault>
    requires { left.at ≤ length bytes.now }
    ensures said { Agrees (λ read. seen bytes.now read.0 read.1) result (wanted loose_of Loose left.number (lines_of (drop left.at bytes.now))) }
    ensures inside { IfOk result (λ read. read.1.at ≤ length bytes.now) }
    ensures tail { IfOk result (λ read. tail_of (drop read.1.at bytes.now) ≡ tail_of (drop left.at bytes.now)) }
{
    let Some((line, rest)) = next_line(bytes, left) else {
        return Err(misfit(left.number, CertKind::Loose));
    };
    match loose_named(alloc, line)? {
        Some(loose) => Ok((loose, rest)),
        None => Err(misfit(left.number, CertKind::Loose)),
    }
}

/// What the row of a line may be.
fn row_parts(origin: Option<Square>, kind: Option<Kind>, bits: u64) -> Option<SetRow>
    ensures value { result ≡ row_if origin kind bits }
    ensures width { IfSome result (λ row. length row.squares ≡ 64) }
{
    match (origin, kind) {
        (Some(origin), Some(kind)) => Some(SetRow {
            origin,
            kind,
            squares: set_of(bits),
        }),
        _ => None,
    }
}

/// Whether rows stand before a place.
fn stand_before(rows: &[SetRow], place: usize) -> bool
    ensures { result ≡ list_all (λ r. nat_lt (row_place r) place) rows.now }
{
    rows.iter().all(|row| row.place() < place)
}

/// Whether a row comes behind rows and has some square.
fn comes_behind(rows: &[SetRow], row: SetRow) -> bool
    ensures { result ≡ follows rows.now row }
{
    let bits = row.squares.bits();
    bits != 0 && stand_before(rows, row.place())
}

/// The set of a number.
fn set_of(bits: u64) -> SquareSet
    ensures value { result ≡ set_of_bits bits }
    ensures width { length result ≡ 64 }
{
    SquareSet::from_bits(bits)
}

/// The row of a line `reach SQUARE KIND H` behind rows.
#[tactic(auto, unfolding(crate::specs::Texts::row_of))]
fn row_named(alloc: Global, rows: &[SetRow], line: &[u8]) -> Result<Option<SetRow>, NoMemory>
    ensures value { IfOk result (λ row. row ≡ row_of rows.now line.now) }
    ensures width { IfOk result (λ row. IfSome row (λ row. length row.squares ≡ 64)) }
    ensures follows { IfOk result (λ row. IfSome row (λ row. IsTrue (follows rows.now row))) }
{
    if line.len() != 27 {
        return Ok(None);
    }
    let (_label, digits) = line.split_at(11);
    let Some(row) = row_parts(
        Square::of_text(line[6], line[7]),
        Kind::of_letter(line[9]),
        number(16, digits),
    ) else {
        return Ok(None);
    };
    let mut text = Text::new(alloc);
    put_row(row, &mut text)?;
    Ok(if line == text.items() && comes_behind(rows, row) {
        Some(row)
    } else {
        None
    })
}

/// Whether a line is wanted to be a row.
fn begins_as_row(line: &[u8]) -> bool
    ensures { result ≡ begins_reach line.now }
{
    line.starts_with(b"reach ")
}

/// The next row, and what is left behind it. None where the next line is none of a row.
#[tactic(auto, unfolding(crate::specs::Texts::rows_after))]
fn next_row(
    alloc: Global,
    rows: &[SetRow],
    bytes: &[u8],
    left: Left,
) -> Result<Option<(SetRow, Left)>, CertFault>
    requires { left.at ≤ length bytes.now }
    ensures said { IfOk result (RowGoesOn bytes.now rows.now left) }
    ensures fault { IfErr result (λ fault. fault.kind ≢ Wanting → rows_after (tail_of (drop left.at bytes.now)) rows.now left.number (lines_of (drop left.at bytes.now)) ≡ Err fault) }
    ensures tail { IfOk result (λ next. IfSome next (λ next. tail_of (drop next.1.at bytes.now) ≡ tail_of (drop left.at bytes.now))) }
    ensures inside { IfOk result (λ next. IfSome next (λ next. next.1.at ≤ length bytes.now)) }
    ensures more { IfOk result (λ next. IfSome next (λ next. left.at < next.1.at)) }
    ensures width { IfOk result (λ next. IfSome next (λ next. length next.0.squares ≡ 64)) }
    ensures follows { IfOk result (λ next. IfSome next (λ next. IsTrue (follows rows.now next.0))) }
{
    let Some((line, rest)) = next_line(bytes, left) else {
        if begins_as_row(bytes.split_at(left.at).1) {
            return Err(misfit(left.number, CertKind::Reach));
        }
        return Ok(None);
    };
    if !begins_as_row(line) {
        return Ok(None);
    }
    match row_named(alloc, rows, line)? {
        Some(row) => Ok(Some((row, rest))),
        None => Err(misfit(left.number, CertKind::Reach)),
    }
}

/// The rows of a leaf.
pub fn rows_of_leaf(
    alloc: Global,
    bytes: &[u8],
    left: Left,
) -> Result<(Vec<SetRow>, Left), CertFault>
    requires { left.at ≤ length bytes.now }
    ensures said { Agrees (λ read. seen bytes.now read.0.items read.1) result (rows_after (tail_of (drop left.at bytes.now)) [] left.number (lines_of (drop left.at bytes.now))) }
    ensures inside { IfOk result (λ read. read.1.at ≤ length bytes.now) }
    ensures tail { IfOk result (λ read. tail_of (drop read.1.at bytes.now) ≡ tail_of (drop left.at bytes.now)) }
    ensures tidy { IfOk result (λ read. AreTidy read.0.items) }
{
    let mut rows = Vec::new(alloc);
    let mut left = left;
    while let Some(next) = next_row(alloc, rows.as_slice(), bytes, left)? {
        rows.push(next.0)?;
        left = next.1;
    }
    Ok((rows, left))
}
