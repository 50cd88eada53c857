//! The nodes of a text.

ghost use Rattle.std.specs.Prelude.{◌≤◌, ◌<◌, ◌^◌, drop, length, ◌≡◌, [], IfOk};
ghost use Rattle.cha_cert.specs.Shared.{expansion};
ghost use Rattle.cert_text.specs.TextLines.{lines_of, tail_of};
ghost use Rattle.cert_text.specs.Spelled.{IsInnerOrLeaf, AreInnerOrLeaves};
ghost use Rattle.cert_text.specs.Texts.{leaf_after, node_after, nodes_after};
ghost use Rattle.cert_text.specs.Agreeing.{Agrees, seen};

use crate::faults::{CertFault, CertKind};
use crate::labels::{Label, position_named};
use crate::leaves::{loose_line, rows_of_leaf};
use crate::rest::Left;
use crate::text_lines::{misfit, next_line};
use cha_board::Position;
use cha_cert::{Node, Part, SharedCert, append};
use mob_sets::Sets;
use std::alloc::Global;

/// The leaf on a position.
#[tactic(auto, unfolding(crate::specs::Texts::leaf_after))]
fn leaf(
    alloc: Global,
    position: Position,
    bytes: &[u8],
    left: Left,
) -> Result<(Node, Left), CertFault>
    requires { left.at ≤ length bytes.now }
    ensures said { Agrees (λ read. seen bytes.now read.0 read.1) result (leaf_after (tail_of (drop left.at bytes.now)) position left.number (lines_of (drop left.at bytes.now))) }
    ensures inside { IfOk result (λ read. read.1.at ≤ length bytes.now) }
    ensures tail { IfOk result (λ read. tail_of (drop read.1.at bytes.now) ≡ tail_of (drop left.at bytes.now)) }
    ensures inner_or_leaf { IfOk result (λ read. IsInnerOrLeaf read.0.part) }
{
    let (loose, left) = loose_line(alloc, bytes, left)?;
    let (rows, left) = rows_of_leaf(alloc, bytes, left)?;
    Ok((
        Node {
            position,
            part: Part::Leaf(Sets::of_rows(rows, loose)),
        },
        left,
    ))
}

/// The next node.
#[tactic(auto, unfolding(crate::specs::Texts::node_after))]
fn node(alloc: Global, bytes: &[u8], left: Left) -> Result<(Node, Left), CertFault>
    requires { left.at ≤ length bytes.now }
    ensures said { Agrees (λ read. seen bytes.now read.0 read.1) result (node_after (tail_of (drop left.at bytes.now)) left.number (lines_of (drop left.at bytes.now))) }
    ensures inside { IfOk result (λ read. read.1.at ≤ length bytes.now) }
    ensures tail { IfOk result (λ read. tail_of (drop read.1.at bytes.now) ≡ tail_of (drop left.at bytes.now)) }
    ensures inner_or_leaf { IfOk result (λ read. IsInnerOrLeaf read.0.part) }
{
    let Some((line, rest)) = next_line(bytes, left) else {
        return Err(misfit(left.number, CertKind::Node));
    };
    let Some(label) = Label::of_line(line) else {
        return Err(misfit(left.number, CertKind::Node));
    };
    let Some(position) = position_named(alloc, label, line)? else {
        return Err(misfit(left.number, CertKind::Node));
    };
    match label {
        Label::Inner => {
            let part = Part::Inner;
            Ok((Node { position, part }, rest))
        }
        Label::Leaf => leaf(alloc, position, bytes, rest),
        Label::Men(_) => Err(misfit(left.number, CertKind::Node)),
    }
}

/// So many nodes, each leaf with sets of its own. No memory is reserved for them before they are read.
pub fn nodes(
    alloc: Global,
    count: u32,
    bytes: &[u8],
    left: Left,
) -> Result<(SharedCert, Left), CertFault>
    requires { left.at ≤ length bytes.now }
    ensures said { Agrees (λ read. seen bytes.now (expansion read.0) read.1) result (nodes_after (tail_of (drop left.at bytes.now)) count [] left.number (lines_of (drop left.at bytes.now))) }
    ensures inside { IfOk result (λ read. read.1.at ≤ length bytes.now) }
    ensures tail { IfOk result (λ read. tail_of (drop read.1.at bytes.now) ≡ tail_of (drop left.at bytes.now)) }
    ensures inner_or_leaf { IfOk result (λ read. AreInnerOrLeaves (expansion read.0)) }
    ensures sets { IfOk result (λ read. length read.0.sets < 2 ^ 32) }
{
    let mut cert = SharedCert::new(alloc);
    let mut left = left;
    for _read in 0..count {
        let (node, rest) = node(alloc, bytes, left)?;
        append(&mut cert, node)?;
        left = rest;
    }
    Ok((cert, left))
}
