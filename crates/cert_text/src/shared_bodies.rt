//! The sets and the nodes of a text of version 2.

ghost use Rattle.std.specs.Prelude.{◌≤◌, drop, length, ◌≡◌, [], IfOk, IfSome};
ghost use Rattle.cha_cert.specs.Shared.{Names};
ghost use Rattle.cert_text.specs.declared.faults.CertKind.TheVariants.{Sets as SetsKind, Node as NodeKind};
ghost use Rattle.cert_text.specs.TextLines.{lines_of, tail_of};
ghost use Rattle.cert_text.specs.Texts.{position_of, wanted};
ghost use Rattle.cert_text.specs.SharedTexts.{sets_of, shared_leaf_of, node_if, shared_node_of, sets_after, many_after};
ghost use Rattle.cert_text.specs.Agreeing.{Agrees, seen};

use crate::digits::number;
use crate::faults::{CertFault, CertKind};
use crate::labels::{Label, position_named};
use crate::leaves::{loose_line, rows_of_leaf};
use crate::rest::Left;
use crate::shared_spelled::{put_sets_count, put_shared_leaf};
use crate::text_lines::{misfit, next_line};
use cha_board::Kept;
use cha_cert::{SharedCert, SharedNode, SharedPart};
use cha_fen::read;
use cha_list::{Class, NoMemory, Text, run_of};
use mob_sets::Sets;
use std::alloc::Global;

/// The number of a line `sets M`.
#[tactic(auto, unfolding(crate::specs::SharedTexts::sets_of))]
fn sets_named(alloc: Global, line: &[u8]) -> Result<Option<u32>, NoMemory>
    ensures { IfOk result (λ count. count ≡ sets_of line.now) }
{
    if line.len() < 6 || line.len() > 15 {
        return Ok(None);
    }
    let (_label, digits) = line.split_at(5);
    let count = number(10, digits);
    if count > 0xffff_ffff {
        return Ok(None);
    }
    let mut text = Text::new(alloc);
    put_sets_count(alloc, count, &mut text)?;
    Ok(if text.items() == line {
        Some(count as u32)
    } else {
        None
    })
}

/// The number of sets.
#[tactic(auto, unfolding(crate::specs::Texts::wanted))]
pub fn sets_count_line(alloc: Global, bytes: &[u8], left: Left) -> Result<(u32, Left), CertFault>
    requires { left.at ≤ length bytes.now }
    ensures said { Agrees (λ read. seen bytes.now read.0 read.1) result (wanted sets_of SetsKind left.number (lines_of (drop left.at bytes.now))) }
    ensures inside { IfOk result (λ read. read.1.at ≤ length bytes.now) }
    ensures tail { IfOk result (λ read. tail_of (drop read.1.at bytes.now) ≡ tail_of (drop left.at bytes.now)) }
{
    let Some((line, rest)) = next_line(bytes, left) else {
        return Err(misfit(left.number, CertKind::Sets));
    };
    match sets_named(alloc, line)? {
        Some(count) => Ok((count, rest)),
        None => Err(misfit(left.number, CertKind::Sets)),
    }
}

/// The next sets.
#[tactic(auto, unfolding(crate::specs::SharedTexts::sets_after))]
fn one_sets(alloc: Global, bytes: &[u8], left: Left) -> Result<(Sets, Left), CertFault>
    requires { left.at ≤ length bytes.now }
    ensures said { Agrees (λ read. seen bytes.now read.0 read.1) result (sets_after (tail_of (drop left.at bytes.now)) left.number (lines_of (drop left.at bytes.now))) }
    ensures inside { IfOk result (λ read. read.1.at ≤ length bytes.now) }
    ensures tail { IfOk result (λ read. tail_of (drop read.1.at bytes.now) ≡ tail_of (drop left.at bytes.now)) }
{
    let (loose, left) = loose_line(alloc, bytes, left)?;
    let (rows, left) = rows_of_leaf(alloc, bytes, left)?;
    Ok((Sets::of_rows(rows, loose), left))
}

/// The leaf of a line `leaf I FEN`, where so many sets are there.
#[tactic(auto, unfolding(crate::specs::SharedTexts::shared_leaf_of))]
fn shared_leaf_named(alloc: Global, sets: u32, line: &[u8]) -> Result<Option<SharedNode>, NoMemory>
    ensures value { IfOk result (λ node. node ≡ shared_leaf_of sets line.now) }
    ensures named { IfOk result (λ node. IfSome node (λ node. Names sets node.part)) }
{
    if line.len() < 6 {
        return Ok(None);
    }
    let (_label, behind) = line.split_at(5);
    let places = run_of(Class::NotBlank, behind);
    if line.len() < places + 6 || places > 10 {
        return Ok(None);
    }
    let (digits, _behind) = behind.split_at(places);
    let named = number(10, digits);
    let (_before, fen) = line.split_at(places + 6);
    let Ok(position) = read(fen) else {
        return Ok(None);
    };
    if named >= u64::from(sets) {
        return Ok(None);
    }
    let named = named as u32;
    let mut text = Text::new(alloc);
    put_shared_leaf(alloc, named, &position, &mut text)?;
    Ok(if line == text.items() {
        Some(SharedNode {
            position: Kept::of(&position),
            part: SharedPart::Leaf(named),
        })
    } else {
        None
    })
}

/// The node of a line with a label that no number follows.
fn node_named(
    alloc: Global,
    label: Label,
    part: SharedPart,
    line: &[u8],
) -> Result<Option<SharedNode>, NoMemory>
    ensures value { IfOk result (λ node. node ≡ node_if part (position_of label line.now)) }
    ensures part { IfOk result (λ node. IfSome node (λ node. node.part ≡ part)) }
{
    Ok(match position_named(alloc, label, line)? {
        Some(position) => Some(SharedNode {
            position: Kept::of(&position),
            part,
        }),
        None => None,
    })
}

/// The node of a line, where so many sets are there.
#[tactic(auto, unfolding(crate::specs::SharedTexts::shared_node_of))]
fn shared_node_named(alloc: Global, sets: u32, line: &[u8]) -> Result<Option<SharedNode>, NoMemory>
    ensures value { IfOk result (λ node. node ≡ shared_node_of sets line.now) }
    ensures named { IfOk result (λ node. IfSome node (λ node. Names sets node.part)) }
{
    let Some(label) = Label::of_line(line) else {
        return Ok(None);
    };
    match label {
        Label::Inner => node_named(alloc, label, SharedPart::Inner, line),
        Label::Men(reason) => node_named(alloc, label, SharedPart::Men(reason), line),
        Label::Leaf => shared_leaf_named(alloc, sets, line),
    }
}

/// The next node, where so many sets are there.
#[tactic(auto, unfolding(crate::specs::Texts::wanted))]
fn one_node(
    alloc: Global,
    sets: u32,
    bytes: &[u8],
    left: Left,
) -> Result<(SharedNode, Left), CertFault>
    requires { left.at ≤ length bytes.now }
    ensures said { Agrees (λ read. seen bytes.now read.0 read.1) result (wanted (shared_node_of sets) NodeKind left.number (lines_of (drop left.at bytes.now))) }
    ensures inside { IfOk result (λ read. read.1.at ≤ length bytes.now) }
    ensures tail { IfOk result (λ read. tail_of (drop read.1.at bytes.now) ≡ tail_of (drop left.at bytes.now)) }
    ensures named { IfOk result (λ read. Names sets read.0.part) }
{
    let Some((line, rest)) = next_line(bytes, left) else {
        return Err(misfit(left.number, CertKind::Node));
    };
    match shared_node_named(alloc, sets, line)? {
        Some(node) => Ok((node, rest)),
        None => Err(misfit(left.number, CertKind::Node)),
    }
}

/// So many sets. No memory is reserved for them before they are read.
pub fn all_sets(
    alloc: Global,
    count: u32,
    bytes: &[u8],
    left: Left,
) -> Result<(SharedCert, Left), CertFault>
    requires { left.at ≤ length bytes.now }
    ensures said { Agrees (λ read. seen bytes.now read.0.sets read.1) result (many_after (sets_after (tail_of (drop left.at bytes.now))) count [] left.number (lines_of (drop left.at bytes.now))) }
    ensures inside { IfOk result (λ read. read.1.at ≤ length bytes.now) }
    ensures tail { IfOk result (λ read. tail_of (drop read.1.at bytes.now) ≡ tail_of (drop left.at bytes.now)) }
    ensures no_nodes { IfOk result (λ read. read.0.nodes ≡ []) }
    ensures size { IfOk result (λ read. length read.0.sets ≡ count) }
{
    let mut shared = SharedCert::new(alloc);
    let mut left = left;
    for _read in 0..count {
        let (sets, rest) = one_sets(alloc, bytes, left)?;
        shared.add_sets(sets)?;
        left = rest;
    }
    Ok((shared, left))
}

/// So many nodes, behind the sets of a certificate. No memory is reserved for them before they are read.
pub fn all_nodes(
    alloc: Global,
    count: u32,
    shared: SharedCert,
    sets: u32,
    bytes: &[u8],
    left: Left,
) -> Result<(SharedCert, Left), CertFault>
    requires inside { left.at ≤ length bytes.now }
    requires no_nodes { shared.nodes ≡ [] }
    requires sets { length shared.sets ≡ sets }
    ensures said { Agrees (λ read. seen bytes.now read.0.nodes read.1) result (many_after (wanted (shared_node_of sets) NodeKind) count [] left.number (lines_of (drop left.at bytes.now))) }
    ensures inside { IfOk result (λ read. read.1.at ≤ length bytes.now) }
    ensures tail { IfOk result (λ read. tail_of (drop read.1.at bytes.now) ≡ tail_of (drop left.at bytes.now)) }
    ensures sets { IfOk result (λ read. read.0.sets ≡ shared.sets) }
{
    let mut shared = shared;
    let mut left = left;
    for _read in 0..count {
        let (node, rest) = one_node(alloc, sets, bytes, left)?;
        shared.push(node)?;
        left = rest;
    }
    Ok((shared, left))
}
